// Damages one flag of a board's record by a number from 24 to 49 hex, in the record's order: the flag becomes 2, which a working board has
// nowhere. 4A and 4B damage the place of the oldest sample. Another number leaves the record. Each contract is a definition of specs/SpoiledFlags.antt.
ghost use Rattle.std.specs.Prelude.{◌≡◌};
ghost use Rattle.cases_board_host.specs.SpoiledFlags.{damaged_flag, damaged_converter, damaged_asked, damaged_requests, damaged_fifo};
ghost use Rattle.cases_board_host.specs.SpoiledFlags.{damaged_load, damaged_outputs, place_from, damaged_count, damaged_bus, damaged_counter};
ghost use Rattle.cases_board_host.specs.SpoiledFlags.{damaged_timer, damaged_clocks, damaged_calibration, damaged_pins, damaged_wiring, damaged};

use calibration::Calibration;
use converter::channels::Converter;
use counter::{Bus, Count, Counter};
use fifo::Fifo;
use machine::{Board, Clocks, Pins, Wiring};
use outputs::{Load, Outputs};
use requests::{Flags, Requests};
use timer::Timer;

// `own` is the flag's own number. Most flags stand in 8 bits, some in 16.
fn damage_flag<T: From<u8> + Drop>(v: T, n: u32, own: u32) -> T
    ensures damaged { n ≡ own → T.from_gives 2 result }
    ensures kept { (n ≡ own → ⊥) → result ≡ v }
{
    if n == own { T::from(2) } else { v }
}

fn damage_converter(c: Converter, n: u32) -> Converter
    ensures { result ≡ damaged_converter c n }
{
    Converter {
        converting: damage_flag(c.converting, n, 0x24),
        scanen: damage_flag(c.scanen, n, 0x25),
        clken: damage_flag(c.clken, n, 0x26),
        ..c
    }
}

fn damage_asked(f: Flags, n: u32) -> Flags
    ensures { result ≡ damaged_asked f n }
{
    Flags {
        adint: damage_flag(f.adint, n, 0x2C),
        dint: damage_flag(f.dint, n, 0x2D),
        tint: damage_flag(f.tint, n, 0x2E),
    }
}

fn damage_requests(q: Requests, n: u32) -> Requests
    ensures { result ≡ damaged_requests q n }
{
    Requests {
        fifoen: damage_flag(q.fifoen, n, 0x27),
        clksel: damage_flag(q.clksel, n, 0x28),
        adinte: damage_flag(q.adinte, n, 0x29),
        dinte: damage_flag(q.dinte, n, 0x2A),
        tinte: damage_flag(q.tinte, n, 0x2B),
        flags: damage_asked(q.flags, n),
        ..q
    }
}

fn damage_fifo(f: Fifo, n: u32) -> Fifo
    ensures { result ≡ damaged_fifo f n }
{
    let ovf = damage_flag(f.ovf, n, 0x2F);
    match n {
        0x4A => Fifo {
            place: 512,
            ovf,
            ..f
        },
        0x4B => Fifo {
            held: 0,
            place: 5,
            ovf,
        },
        _ => Fifo { ovf, ..f },
    }
}

fn damage_load(l: Load, n: u32) -> Load
    ensures { result ≡ damaged_load l n }
{
    Load {
        loaded: damage_flag(l.loaded, n, 0x30),
        ..l
    }
}

fn damage_outputs(o: Outputs, n: u32) -> Outputs
    ensures { result ≡ damaged_outputs o n }
{
    Outputs {
        load: damage_load(o.load, n),
        ..o
    }
}

// The place of a number among a counter's seven flags, the first of which has the number `first`: 0 to 6, or 7 and more for another number.
fn place(n: u32, first: u32) -> u32
    ensures { result ≡ place_from n first }
{
    if n < first { 7 } else { n - first }
}

fn damage_count(c: Count, at: u32) -> Count
    ensures { result ≡ damaged_count c at }
{
    Count {
        out: damage_flag(c.out, at, 1),
        waiting: damage_flag(c.waiting, at, 2),
        loaded: damage_flag(c.loaded, at, 3),
        ..c
    }
}

fn damage_bus(s: Bus, at: u32) -> Bus
    ensures { result ≡ damaged_bus s at }
{
    Bus {
        latched: damage_flag(s.latched, at, 4),
        halfread: damage_flag(s.halfread, at, 5),
        halfwritten: damage_flag(s.halfwritten, at, 6),
        ..s
    }
}

fn damage_counter(c: Counter, at: u32) -> Counter
    ensures { result ≡ damaged_counter c at }
{
    Counter {
        trigger: damage_flag(c.trigger, at, 0),
        count: damage_count(c.count, at),
        bus: damage_bus(c.bus, at),
        ..c
    }
}

fn damage_timer(t: Timer, n: u32) -> Timer
    ensures { result ≡ damaged_timer t n }
{
    Timer {
        counter0: damage_counter(t.counter0, place(n, 0x31)),
        counter1: damage_counter(t.counter1, place(n, 0x38)),
        counter2: damage_counter(t.counter2, place(n, 0x3F)),
    }
}

fn damage_clocks(k: Clocks, n: u32) -> Clocks
    ensures { result ≡ damaged_clocks k n }
{
    machine::put_timer(k, damage_timer(k.timer, n))
}

fn damage_calibration(c: Calibration, n: u32) -> Calibration
    ensures { result ≡ damaged_calibration c n }
{
    Calibration {
        key: damage_flag(c.key, n, 0x46),
        cmuxen: damage_flag(c.cmuxen, n, 0x47),
        ..c
    }
}

fn damage_pins(p: Pins, n: u32) -> Pins
    ensures { result ≡ damaged_pins p n }
{
    Pins {
        latch: damage_flag(p.latch, n, 0x48),
        ..p
    }
}

fn damage_wiring(w: Wiring, n: u32) -> Wiring
    ensures { result ≡ damaged_wiring w n }
{
    Wiring {
        zeroscale: damage_flag(w.zeroscale, n, 0x49),
        ..w
    }
}

pub fn damage_board(b: Board, n: u32) -> Board
    ensures { result ≡ damaged b n }
{
    Board {
        converter: damage_converter(b.converter, n),
        requests: damage_requests(b.requests, n),
        fifo: damage_fifo(b.fifo, n),
        outputs: damage_outputs(b.outputs, n),
        clocks: damage_clocks(b.clocks, n),
        calibration: damage_calibration(b.calibration, n),
        pins: damage_pins(b.pins, n),
        wiring: damage_wiring(b.wiring, n),
        ..b
    }
}
