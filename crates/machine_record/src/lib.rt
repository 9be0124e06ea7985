// The board's record: fresh, working, and as it shows on the pins. What ticks, pins and resets make of it stands in crates above; none of
// them sees the sample memory or the EEPROM. Each contract is a definition of specs/.
#![tactic(auto)]

ghost use Rattle.std.specs.Prelude.{◌≡◌};
ghost use Rattle.base.specs.Tests.{all};
ghost use Rattle.machine_record.specs.Fresh.{fresh_registers, fresh_board, jumpers_number};
ghost use Rattle.machine_record.specs.Working.{register_tests, pin_tests, most_tests, is_working_machine};
ghost use Rattle.machine_record.specs.View.{dout_pins, single_ended};

use calibration::Calibration;
use converter::channels::Converter;
use fifo::Fifo;
use outputs::Outputs;
use ports::Ports;
use requests::Requests;
use timer::Timer;

// The channel configuration of manual 5.4.
#[derive(Clone, Copy)]
pub enum Jumpers {
    A,
    B,
    C,
    D,
}

// Registers that belong to no other part: the page of Base+8, DOUT (Base+1), Base+10, and the low four bits of Base+11.
#[repr(C)]
#[derive(Clone, Copy)]
pub struct Registers {
    pub page: u8,
    pub dout: u8,
    pub counting: u8,
    pub range: u8,
}

// The 82C54 and the dividers that make 100 kHz and 10 kHz of the 10 MHz clock: the ticks since the last pulse of each.
#[repr(C)]
#[derive(Clone, Copy)]
pub struct Clocks {
    pub timer: Timer,
    pub hundred: u16,
    pub thousand: u16,
}

// The levels of DIN3-0 and of the Latch pin.
#[repr(C)]
#[derive(Clone, Copy)]
pub struct Pins {
    pub din: u8,
    pub latch: u8,
}

// The jumpers: channel configuration 0 to 3 for A to D, and whether the outputs go to zero scale at a reset.
#[repr(C)]
#[derive(Clone, Copy)]
pub struct Wiring {
    pub inputs: u8,
    pub zeroscale: u8,
}

#[repr(C)]
#[derive(Clone, Copy)]
pub struct Board {
    pub converter: Converter,
    pub requests: Requests,
    pub fifo: Fifo,
    pub registers: Registers,
    pub outputs: Outputs,
    pub clocks: Clocks,
    pub ports: Ports,
    pub calibration: Calibration,
    pub pins: Pins,
    pub wiring: Wiring,
}

// Their number in the record.
impl From<Jumpers> for u8 {
    ghost from_gives = { λ jumpers number. number ≡ jumpers_number jumpers };

    fn from(jumpers: Jumpers) -> u8 {
        match jumpers {
            Jumpers::A => 0,
            Jumpers::B => 1,
            Jumpers::C => 2,
            Jumpers::D => 3,
        }
    }
}

pub fn fresh_registers() -> Registers
    ensures { result ≡ fresh_registers }
{
    Registers {
        page: 0,
        dout: 0,
        counting: 0,
        range: 0,
    }
}

// A fresh board.
pub fn fresh(jumpers: Jumpers, zero_scale: bool) -> Board
    ensures { result ≡ fresh_board jumpers zero_scale }
{
    Board {
        converter: converter::channels::fresh_converter(),
        requests: requests::fresh_requests(),
        fifo: fifo::empty(),
        registers: fresh_registers(),
        outputs: outputs::reset_a(zero_scale),
        clocks: Clocks {
            timer: timer::new(),
            hundred: 0,
            thousand: 0,
        },
        ports: ports::fresh(),
        calibration: calibration::fresh(),
        pins: Pins { din: 15, latch: 0 },
        wiring: Wiring {
            inputs: jumpers.into(),
            zeroscale: zero_scale as u8,
        },
    }
}

fn registers_work(r: Registers) -> bool
    ensures { result ≡ all (register_tests r) }
{
    // the bits above 1 of the page and above 2 of DOUT
    (base::join_bytes(r.page, r.dout) & 0xF8FC == 0) & (r.range <= 15)
}

fn pins_work(p: Pins, w: Wiring) -> bool
    ensures { result ≡ all (pin_tests p w) }
{
    let levels = base::join_bytes(p.din, p.latch);
    let jumpers = base::join_bytes(w.inputs, w.zeroscale);
    // the bits above 3 of DIN and above 1 of the inputs, and those that no flag has
    base::join_words(levels, jumpers) & 0xFEFCFEF0 == 0
}

// Whether the record, its sample memory and the control bits of its counters apart, is a working board's.
fn most_works(b: Board) -> bool
    ensures { result ≡ all (most_tests b) }
{
    converter::channels::is_working(b.converter)
        & requests::is_working(b.requests)
        & registers_work(b.registers)
        & outputs::is_working(b.outputs)
        & (b.clocks.hundred <= 99)
        & (b.clocks.thousand <= 999)
        & ports::is_working(b.ports)
        & calibration::is_working(b.calibration)
        & pins_work(b.pins, b.wiring)
        & timer::flags_work(b.clocks.timer)
}

// Whether the record, its sample memory apart, is a working board's.
pub fn is_working(b: Board) -> bool
    ensures { result ≡ is_working_machine b }
{
    if most_works(b) {
        timer::controls_work(b.clocks.timer)
    } else {
        false
    }
}

// DOUT2-0 as they stand on their pins (bits 2 to 0): OUT2 and OUT0 where OUT2EN and OUT0EN route them there.
pub fn dout_pins(b: Board) -> u8
    ensures { result ≡ dout_pins b }
{
    let w = b.registers.counting;
    let d = b.registers.dout;
    let two = (w / 32 % 2 == 1) & (b.clocks.timer.counter2.count.out == 1)
        | !(w / 32 % 2 == 1) & (d / 4 % 2 == 1);
    let one = d / 2 % 2 == 1;
    let zero = (w / 16 % 2 == 1) & (b.clocks.timer.counter0.count.out == 1)
        | !(w / 16 % 2 == 1) & (d / 1 % 2 == 1);
    base::weight(two, 4) + base::weight(one, 2) + base::weight(zero, 1)
}

// S/D1 and S/D0 as they stand in the byte read at Base+8, by the jumpers.
pub fn single_ended(inputs: u8) -> u8
    ensures { result ≡ single_ended inputs }
{
    match inputs {
        0 => 96,
        1 => 0,
        2 => 64,
        3 => 32,
        _ => 0,
    }
}
