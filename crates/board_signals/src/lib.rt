// The events that do not come over the bus: a conversion ends, pins take new levels, the clock ticks, a transfer ends. Each makes its checks in their order,
// and then does what the event does (specs/Act.antt of board_step). `c` is the record as it becomes.
#![tactic(auto)]

ghost use Rattle.std.specs.Prelude.{◌≡◌};
ghost use Rattle.board_step.specs.Step.{step_of, memory_after, eeprom_after};
ghost use Rattle.board_events.specs.declared.Event.TheVariants.{ConversionEnd, DinPins, LatchLevel, PortPins, Tick, TransferEnd};

use board_events::Answer;
use board_step::Outcome;
use machine::Board;
use ports::Port;

// The conversion in progress ends with a signed code: its sample is kept, or lost at 512 held; the scan is over, and ADINT may be asked for, or it goes on.
pub fn conversion_end(board: Board, memory: &mut [u16], eeprom: &mut [u8], code: i16) -> Outcome
    ensures value { result ≡ step_of board memory.old eeprom.old (ConversionEnd code) }
    ensures memory_after { memory.new ≡ memory_after board memory.old eeprom.old (ConversionEnd code) }
    ensures eeprom_after { eeprom.new ≡ eeprom_after board memory.old eeprom.old (ConversionEnd code) }
{
    let mut c = board;
    let answer = if (memory.len() != 512) | (eeprom.len() != 128) {
        Answer::Refused(2)
    } else if !board_refusal::is_working(c, memory) {
        Answer::Refused(1)
    } else if c.converter.converting != 1 {
        Answer::Refused(4)
    } else {
        let f = fifo::push(c.fifo, memory, converter::codes::sample(code));
        c.fifo = f;
        if converter::channels::is_last(c.converter) {
            c.converter.converting = 0;
            c.requests = requests::ask_ad(c.requests, true, c.fifo.held);
        } else {
            c.converter = converter::channels::start(c.converter);
        }
        Answer::Done
    };
    Outcome { board: c, answer }
}

// DIN3-0 take new levels.
pub fn din_pins(board: Board, memory: &mut [u16], eeprom: &mut [u8], lines: u32) -> Outcome
    ensures value { result ≡ step_of board memory.old eeprom.old (DinPins (record { lines = lines })) }
    ensures memory_after { memory.new ≡ memory_after board memory.old eeprom.old (DinPins (record { lines = lines })) }
    ensures eeprom_after { eeprom.new ≡ eeprom_after board memory.old eeprom.old (DinPins (record { lines = lines })) }
{
    let mut c = board;
    let answer = if (memory.len() != 512) | (eeprom.len() != 128) {
        Answer::Refused(2)
    } else if !board_refusal::is_working(c, memory) {
        Answer::Refused(1)
    } else if lines > 15 {
        Answer::Refused(5)
    } else {
        c = machine::set_din(c, (lines % 16) as u8);
        Answer::Done
    };
    Outcome { board: c, answer }
}

// The Latch pin takes a level: 0 is low, any other number high.
pub fn latch_level(board: Board, memory: &mut [u16], eeprom: &mut [u8], level: u32) -> Outcome
    ensures value { result ≡ step_of board memory.old eeprom.old (LatchLevel level) }
    ensures memory_after { memory.new ≡ memory_after board memory.old eeprom.old (LatchLevel level) }
    ensures eeprom_after { eeprom.new ≡ eeprom_after board memory.old eeprom.old (LatchLevel level) }
{
    let mut c = board;
    let answer = if (memory.len() != 512) | (eeprom.len() != 128) {
        Answer::Refused(2)
    } else if !board_refusal::is_working(c, memory) {
        Answer::Refused(1)
    } else {
        c.requests = requests::ask_latch(c.requests, (c.pins.latch != 1) & (level != 0));
        let latch = (level != 0) as u8;
        c.pins.latch = latch;
        Answer::Done
    };
    Outcome { board: c, answer }
}

// The pins of a port take new levels.
pub fn port_pins(
    board: Board,
    memory: &mut [u16],
    eeprom: &mut [u8],
    port: Port,
    pins: u8,
) -> Outcome
    ensures value { result ≡ step_of board memory.old eeprom.old (PortPins port pins) }
    ensures memory_after { memory.new ≡ memory_after board memory.old eeprom.old (PortPins port pins) }
    ensures eeprom_after { eeprom.new ≡ eeprom_after board memory.old eeprom.old (PortPins port pins) }
{
    let mut c = board;
    let answer = if (memory.len() != 512) | (eeprom.len() != 128) {
        Answer::Refused(2)
    } else if !board_refusal::is_working(c, memory) {
        Answer::Refused(1)
    } else {
        c.ports = ports::set_pins(c.ports, port, pins);
        Answer::Done
    };
    Outcome { board: c, answer }
}

// One tick of the 10 MHz clock: the dividers; DACBUSY; counter 0; counter 1, and counter 2 where OUT1 falls.
pub fn tick(board: Board, memory: &mut [u16], eeprom: &mut [u8]) -> Outcome
    ensures value { result ≡ step_of board memory.old eeprom.old Tick }
    ensures memory_after { memory.new ≡ memory_after board memory.old eeprom.old Tick }
    ensures eeprom_after { eeprom.new ≡ eeprom_after board memory.old eeprom.old Tick }
{
    let mut c = board;
    let answer = if (memory.len() != 512) | (eeprom.len() != 128) {
        Answer::Refused(2)
    } else if !board_refusal::is_working(c, memory) {
        Answer::Refused(1)
    } else {
        let hundred = machine::next_tick(c.clocks.hundred, 99);
        let thousand = machine::next_tick(c.clocks.thousand, 999);
        c.clocks.hundred = hundred;
        c.clocks.thousand = thousand;
        c.outputs = outputs::tick(c.outputs);
        let g = machine::gates_at(c.registers.counting, c.pins.din);
        let was0 = c.clocks.timer.counter0.count.out == 1;
        let clocks0 = machine::clocks_0(c.registers.counting, thousand);
        let k0 = machine::pulse_if(c.clocks.timer.counter0, g.gate0, clocks0);
        let mut t0 = c.clocks.timer;
        t0.counter0 = k0;
        c.clocks = machine::put_timer(c.clocks, t0);
        c.requests = requests::ask_timer(c.requests, timer::has_fallen(was0, k0.count.out == 1));
        if machine::clocks_1(c.registers.counting, hundred) {
            let was1 = c.clocks.timer.counter1.count.out == 1;
            let k1 = counter::pulse_working(c.clocks.timer.counter1, g.gate12);
            let mut t1 = c.clocks.timer;
            t1.counter1 = k1;
            c.clocks = machine::put_timer(c.clocks, t1);
            if timer::has_fallen(was1, k1.count.out == 1) {
                let was2 = c.clocks.timer.counter2.count.out == 1;
                let k2 = counter::pulse_working(c.clocks.timer.counter2, g.gate12);
                let mut t2 = c.clocks.timer;
                t2.counter2 = k2;
                c.clocks = machine::put_timer(c.clocks, t2);
                let fell = timer::has_fallen(was2, k2.count.out == 1);
                let triggers = (c.converter.clken == 1) & (c.requests.clksel == 1) & fell;
                c.converter = converter::channels::trigger(c.converter, triggers);
            }
        }
        Answer::Done
    };
    Outcome { board: c, answer }
}

// The calibration transfer that runs ends.
pub fn transfer_end(board: Board, memory: &mut [u16], eeprom: &mut [u8]) -> Outcome
    ensures value { result ≡ step_of board memory.old eeprom.old TransferEnd }
    ensures memory_after { memory.new ≡ memory_after board memory.old eeprom.old TransferEnd }
    ensures eeprom_after { eeprom.new ≡ eeprom_after board memory.old eeprom.old TransferEnd }
{
    let mut c = board;
    let answer = if (memory.len() != 512) | (eeprom.len() != 128) {
        Answer::Refused(2)
    } else if !board_refusal::is_working(c, memory) {
        Answer::Refused(1)
    } else if calibration::is_idle(c.calibration) {
        Answer::Refused(10)
    } else {
        c.calibration = calibration::end_transfer(c.calibration, eeprom);
        Answer::Done
    };
    Outcome { board: c, answer }
}
