// Reads of the guest: each makes its checks in their order, finds the place once, and there refuses, or shows and does what a read of that place shows
// and does (specs/Registers.antt of bus). `c` is the record as it becomes.
#![tactic(auto)]

ghost use Rattle.std.specs.Prelude.{◌≡◌};
ghost use Rattle.board_step.specs.Step.{step_of, memory_after, eeprom_after};
ghost use Rattle.board_events.specs.declared.Event.TheVariants.{ReadByte, ReadWord};

use board_events::Answer;
use board_step::Outcome;
use bus::Place;
use machine::Board;

// The guest reads a byte at an offset.
pub fn read_byte(board: Board, memory: &mut [u16], eeprom: &mut [u8], offset: u32) -> Outcome
    ensures value { result ≡ step_of board memory.old eeprom.old (ReadByte offset) }
    ensures memory_after { memory.new ≡ memory_after board memory.old eeprom.old (ReadByte offset) }
    ensures eeprom_after { eeprom.new ≡ eeprom_after board memory.old eeprom.old (ReadByte offset) }
{
    let mut c = board;
    let answer = if (memory.len() != 512) | (eeprom.len() != 128) {
        Answer::Refused(2)
    } else if !board_refusal::is_working(c, memory) {
        Answer::Refused(1)
    } else {
        let p = bus::map::find(c.registers.page, offset);
        match p {
            Place::Base0 => Answer::Byte(fifo::low_byte(fifo::oldest(c.fifo, memory))),
            Place::Base1 => {
                let v = fifo::high_byte(fifo::oldest(c.fifo, memory));
                let f = fifo::pop(c.fifo, memory);
                c.fifo = f;
                Answer::Byte(v)
            }
            Place::Base2 => Answer::Byte(c.converter.low),
            Place::Base3 => Answer::Byte(c.converter.high),
            Place::Base4 => Answer::Byte(bus::bytes::input_bits(
                c.outputs,
                c.calibration,
                c.pins.din,
            )),
            Place::Base5 => {
                let v = outputs::update_byte(c.outputs);
                c.outputs = outputs::update(c.outputs);
                Answer::Byte(v)
            }
            Place::Base6 => Answer::Byte(c.requests.threshold),
            Place::Base7 => {
                let flags = fifo::flag_bits(c.fifo);
                let modes = requests::mode_bits(c.converter, c.requests);
                Answer::Byte(flags + modes + c.registers.page % 4)
            }
            Place::Base8 => Answer::Byte(bus::bytes::ad_bits(c.converter, c.wiring.inputs)),
            Place::Base9 => Answer::Byte(requests::request_bits(c.converter, c.requests)),
            Place::Base10 => Answer::Byte(c.registers.counting),
            Place::Base11 => Answer::Byte(c.registers.range),
            Place::Count(s) => {
                let r = timer::accesses::read(c.clocks.timer, s);
                let t = r.timer;
                c.clocks = machine::put_timer(c.clocks, t);
                Answer::Byte(r.byte)
            }
            Place::ControlWord => Answer::Byte(0),
            Place::PortData(q) => Answer::Byte(ports::read(c.ports, q)),
            Place::PortControl => Answer::Byte(ports::read_control(c.ports)),
            Place::Reserved => Answer::Byte(0),
            Place::Auxiliary => Answer::Refused(7),
            Place::CalData => Answer::Byte(calibration::read_value(c.calibration)),
            Place::CalAddress => Answer::Byte(calibration::read_address(c.calibration)),
            Place::CalBase14 => Answer::Byte(calibration::read_status(c.calibration)),
            Place::CalBase15 => Answer::Byte(calibration::read_revision()),
            Place::Outside => Answer::Refused(3),
        }
    };
    Outcome { board: c, answer }
}

// The guest reads a word at an offset: the oldest sample, which leaves, or nothing, and then nothing changes.
pub fn read_word(board: Board, memory: &mut [u16], eeprom: &mut [u8], offset: u32) -> Outcome
    ensures value { result ≡ step_of board memory.old eeprom.old (ReadWord offset) }
    ensures memory_after { memory.new ≡ memory_after board memory.old eeprom.old (ReadWord offset) }
    ensures eeprom_after { eeprom.new ≡ eeprom_after board memory.old eeprom.old (ReadWord offset) }
{
    let mut c = board;
    let answer = if (memory.len() != 512) | (eeprom.len() != 128) {
        Answer::Refused(2)
    } else if !board_refusal::is_working(c, memory) {
        Answer::Refused(1)
    } else if offset != 0 {
        Answer::Refused(3)
    } else {
        match fifo::oldest(c.fifo, memory) {
            None => Answer::Nothing,
            Some(sample) => {
                c.fifo = fifo::pop(c.fifo, memory);
                Answer::Word(sample)
            }
        }
    };
    Outcome { board: c, answer }
}
