// A byte written by the guest: the checks in their order; then the place is found once, and there the write is refused, or does what a write of that place
// does (specs/Registers.antt of bus). `c` is the record as it becomes.
#![tactic(auto)]

ghost use Rattle.std.specs.Prelude.{◌≡◌};
ghost use Rattle.board_step.specs.Step.{step_of, memory_after, eeprom_after};
ghost use Rattle.board_events.specs.declared.Event.TheVariants.{WriteByte};

use board_events::Answer;
use board_step::Outcome;
use bus::Place;
use machine::Board;

// The guest writes a byte at an offset.
pub fn write_byte(
    board: Board,
    memory: &mut [u16],
    eeprom: &mut [u8],
    offset: u32,
    value: u8,
) -> Outcome
    ensures value { result ≡ step_of board memory.old eeprom.old (WriteByte offset value) }
    ensures memory_after { memory.new ≡ memory_after board memory.old eeprom.old (WriteByte offset value) }
    ensures eeprom_after { eeprom.new ≡ eeprom_after board memory.old eeprom.old (WriteByte offset value) }
{
    let mut c = board;
    let answer = if (memory.len() != 512) | (eeprom.len() != 128) {
        Answer::Refused(2)
    } else if !board_refusal::is_working(c, memory) {
        Answer::Refused(1)
    } else {
        let p = bus::map::find(c.registers.page, offset);
        match p {
            Place::Base0 => {
                c.converter = converter::channels::software_trigger(c.converter);
                Answer::Done
            }
            Place::Base1 => {
                let dout = value % 8;
                c.registers.dout = dout;
                Answer::Done
            }
            Place::Base2 => {
                c.converter = converter::channels::write_low(c.converter, value);
                Answer::Done
            }
            Place::Base3 => {
                c.converter = converter::channels::write_high(c.converter, value);
                Answer::Done
            }
            Place::Base4 => {
                if outputs::is_busy(c.outputs) {
                    Answer::Refused(6)
                } else {
                    c.outputs = outputs::write_lsb(c.outputs, value);
                    Answer::Done
                }
            }
            Place::Base5 => {
                if outputs::is_busy(c.outputs) {
                    Answer::Refused(6)
                } else {
                    c.outputs = outputs::write_msb(c.outputs, value);
                    Answer::Done
                }
            }
            Place::Base6 => {
                c.requests = requests::write_depth(c.requests, value);
                Answer::Done
            }
            Place::Base7 => {
                c.requests = requests::write_fifoen(c.requests, value);
                c.converter = converter::channels::write_scanen(c.converter, value);
                if requests::is_fiforst(value) {
                    let f = fifo::clear(memory);
                    c.fifo = f;
                }
                Answer::Done
            }
            Place::Base8 => {
                if machine::is_reset(value) {
                    c = machine::reset_board(c, value / 32 % 2 == 1);
                    let f = fifo::clear(memory);
                    c.fifo = f;
                } else if value / 8 % 2 == 1 {
                    c.requests = requests::clear(c.requests);
                } else {
                    let page = value % 4;
                    c.registers.page = page;
                    c.calibration = calibration::forget_key(c.calibration);
                }
                Answer::Done
            }
            Place::Base9 => {
                c.requests = requests::write_enables(c.requests, value);
                c.converter = converter::channels::write_clken(c.converter, value);
                Answer::Done
            }
            Place::Base10 => {
                let was = machine::gates_at(c.registers.counting, c.pins.din);
                let is = machine::gates_at(value, c.pins.din);
                c.registers.counting = value;
                if timer::do_gates_move(was, is) {
                    let t = timer::move_gates(c.clocks.timer, was, is);
                    c.clocks = machine::put_timer(c.clocks, t);
                }
                Answer::Done
            }
            Place::Base11 => {
                let range = value % 16;
                c.registers.range = range;
                Answer::Done
            }
            Place::Count(s) => {
                if timer::accesses::refuses_count(c.clocks.timer, s, value) {
                    Answer::Refused(7)
                } else {
                    let g = machine::gates_at(c.registers.counting, c.pins.din);
                    c = machine::move_timer_by(
                        c,
                        timer::accesses::write_count(c.clocks.timer, s, value, g),
                    );
                    Answer::Done
                }
            }
            Place::ControlWord => {
                if timer::accesses::refuses_control(value) {
                    Answer::Refused(7)
                } else {
                    let g = machine::gates_at(c.registers.counting, c.pins.din);
                    c = machine::move_timer_by(
                        c,
                        timer::accesses::write_control(c.clocks.timer, value, g),
                    );
                    Answer::Done
                }
            }
            Place::PortData(q) => {
                c.ports = ports::write(c.ports, q, value);
                Answer::Done
            }
            Place::PortControl => {
                if ports::control_refused(value) {
                    Answer::Refused(7)
                } else {
                    c.ports = ports::write_control(c.ports, value);
                    Answer::Done
                }
            }
            Place::Reserved => Answer::Done,
            Place::Auxiliary => Answer::Refused(7),
            Place::CalData => {
                if calibration::is_busy(c.calibration) {
                    Answer::Refused(6)
                } else {
                    c.calibration = calibration::write_value(c.calibration, value);
                    Answer::Done
                }
            }
            Place::CalAddress => {
                if calibration::is_busy(c.calibration) {
                    Answer::Refused(6)
                } else {
                    c.calibration = calibration::write_address(c.calibration, value);
                    Answer::Done
                }
            }
            Place::CalBase14 => match calibration::control_refusal(c.calibration, value) {
                Some(refusal) => Answer::Refused(refusal.number),
                None => {
                    c.calibration = calibration::write_control(c.calibration, value);
                    Answer::Done
                }
            },
            Place::CalBase15 => {
                c.calibration = calibration::write_key(c.calibration, value);
                Answer::Done
            }
            Place::Outside => Answer::Refused(3),
        }
    };
    Outcome { board: c, answer }
}
