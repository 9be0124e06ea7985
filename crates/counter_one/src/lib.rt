// One counter of the 82C54 (manual, chapter 19: the data sheet), modes 0 and 2, binary. Each event is a function on a counter by
// value, total over any record, and its contract is a definition of specs/Counter.antt.
#![tactic(auto)]

use counter_bytes::Bus;
use counter_element::Count;
use counter_modes::{ControlCommand, Mode, control, tables};

pub mod counts; // a byte of a count that is written

ghost use Rattle.std.specs.Prelude.{◌≡◌};
ghost use Rattle.counter_modes.specs.Control.{setup_of};
ghost use Rattle.counter_one.specs.Counter.{unprogrammed, programmed, latched_as, commanded, pulsed, gate_moved, counter_read};
ghost use Rattle.counter_one.specs.Working.{flags_work, control_works, WorkingCounter};

#[repr(C)]
#[derive(Clone, Copy)]
pub struct Counter {
    // the control word's six bits below SC as written; 0: unprogrammed
    pub control: u8,
    // the flip-flop that a rising GATE sets
    pub trigger: u8,
    pub count: Count,
    pub bus: Bus,
}

// The byte that a read gives, and the counter after it.
#[derive(Clone, Copy)]
pub struct CounterRead {
    pub byte: u8,
    pub counter: Counter,
}

// A counter before its first control word.
pub fn new() -> Counter
    ensures { result ≡ unprogrammed }
{
    Counter {
        control: 0,
        trigger: 0,
        count: Count {
            register: 0,
            element: 0,
            out: 1,
            waiting: 0,
            loaded: 0,
        },
        bus: counter_bytes::none(),
    }
}

fn program(word: u8, m: Mode) -> Counter
    ensures { result ≡ programmed word m }
{
    Counter {
        control: word % 64,
        trigger: 0,
        count: counter_element::first_count(m),
        bus: counter_bytes::none(),
    }
}

fn latch(c: Counter) -> Counter
    ensures { result ≡ latched_as (setup_of c.control) c }
{
    match control::setup_of(c.control) {
        None => c,
        Some(_) => Counter {
            bus: counter_bytes::take_latch(c.bus, c.count.element),
            ..c
        },
    }
}

// A control word for this counter: it latches the count or programs the counter. A refused one leaves the counter.
#[tactic(auto, unfolding(crate::specs::Counter::commanded))]
pub fn write_word(c: Counter, word: u8) -> Counter
    ensures { result ≡ commanded c word }
{
    match control::command_of(word) {
        ControlCommand::LatchCount => latch(c),
        ControlCommand::Program(_, m) => program(word, m),
        ControlCommand::NotModelled => c,
    }
}

// One CLK pulse at a GATE level.
#[tactic(auto, unfolding(crate::specs::Counter::pulsed))]
pub fn pulse(c: Counter, gate: bool) -> Counter
    ensures { result ≡ pulsed c gate }
{
    match control::setup_of(c.control) {
        None => c,
        Some((_, m)) => Counter {
            trigger: 0,
            count: counter_element::take_pulse(
                m,
                gate,
                c.trigger == 1,
                c.bus.halfwritten == 1,
                c.count,
            ),
            ..c
        },
    }
}

// One CLK pulse of a working counter, as `pulse`: bit 2 of its control bits is the mode, and only what the pulse changes is stored.
pub fn pulse_working(c: Counter, gate: bool) -> Counter
    requires { WorkingCounter c }
    ensures { result ≡ pulsed c gate }
{
    if c.control == 0 {
        return c;
    }
    let rate = c.control / 4 % 2 == 1;
    let mut d = c;
    d.trigger = 0;
    if (c.count.waiting == 1) | (c.count.loaded == 1) & (rate & (c.trigger == 1)) {
        d.count.element = c.count.register;
        d.count.out = rate as u8;
        d.count.waiting = 0;
        d.count.loaded = 1;
        d
    } else if !((c.count.loaded == 1) & gate) {
        d
    } else if rate {
        if c.count.element == 1 {
            d.count.element = c.count.register;
            d.count.out = 1;
            d
        } else {
            let v = c.count.element.wrapping_sub(1);
            d.count.element = v;
            d.count.out = (v != 1) as u8;
            d
        }
    } else if c.bus.halfwritten == 1 {
        d
    } else {
        let v = c.count.element.wrapping_sub(1);
        d.count.element = v;
        d.count.out = ((c.count.out == 1) | (v == 0)) as u8;
        d
    }
}

// GATE goes from `was` to `is`.
#[tactic(auto, unfolding(crate::specs::Counter::gate_moved))]
pub fn move_gate(c: Counter, was: bool, is: bool) -> Counter
    ensures { result ≡ gate_moved c was is }
{
    match control::setup_of(c.control) {
        None => c,
        Some((_, m)) => {
            let trigger = (c.trigger == 1) | tables::trigger_loads(m) & (!was & is);
            Counter {
                trigger: trigger as u8,
                count: counter_element::see_gate(m, was, is, c.count),
                ..c
            }
        }
    }
}

// A read of the counter.
#[tactic(auto, unfolding(crate::specs::Counter::counter_read))]
pub fn read(c: Counter) -> CounterRead
    ensures { result ≡ counter_read c }
{
    match control::setup_of(c.control) {
        None => CounterRead {
            byte: 0,
            counter: c,
        },
        Some((f, _)) => {
            let shown = counter_bytes::shown_count(c.bus, c.count.element);
            CounterRead {
                byte: counter_bytes::byte_shown(f, c.bus.halfread == 1, shown),
                counter: Counter {
                    bus: counter_bytes::after_read(f, c.bus),
                    ..c
                },
            }
        }
    }
}

// Whether every flag is 0 or 1.
pub fn flags_work(c: Counter) -> bool
    ensures { result ≡ flags_work c }
{
    (c.trigger <= 1) & counter_element::is_working(c.count) & counter_bytes::is_working(c.bus)
}

// Whether the six control bits are 0 or set up mode 0 or 2, and suit the count register and OUT.
pub fn control_works(control: u8, register: u16, out: u8) -> bool
    ensures { result ≡ control_works control register out }
{
    if control == 0 {
        out == 1
    } else {
        match control {
            16 | 32 | 48 => true,
            20 | 28 | 36 | 44 | 52 | 60 => register != 1,
            _ => false,
        }
    }
}
