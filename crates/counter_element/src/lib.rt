// The counting element of a counter: loading and counting (manual, chapter 19: the data sheet): specs/Element.antt.
#![tactic(auto)]

ghost use Rattle.std.specs.Prelude.{◌≡◌};
ghost use Rattle.counter_element.specs.Element.{down, load, counted_terminal, counted_rate, counted_by, first_count, piece_taken, gate_seen};
ghost use Rattle.counter_element.specs.Element.{pulse_loads, pulse_counts, pulse_taken};
ghost use Rattle.counter_element.specs.Working.{is_working_count};

use counter_bytes::Piece;
use counter_modes::{Mode, tables};

// The count register CR, the counting element CE and OUT.
#[repr(C)]
#[derive(Clone, Copy)]
pub struct Count {
    pub register: u16,
    pub element: u16,
    pub out: u8,
    // a whole count is to be loaded on the next CLK pulse
    pub waiting: u8,
    // a count was loaded since the control word; wide enough that the record has no padding
    pub loaded: u16,
}

// One less; 65,535 after 0.
fn one_less(v: u16) -> u16
    ensures { result ≡ down v }
{
    v.wrapping_sub(1)
}

fn load_count(k: Count, out: bool) -> Count
    ensures { result ≡ load k out }
{
    Count {
        element: k.register,
        out: out as u8,
        waiting: 0,
        loaded: 1,
        ..k
    }
}

fn count_terminal(k: Count) -> Count
    ensures { result ≡ counted_terminal k }
{
    let v = one_less(k.element);
    Count {
        element: v,
        out: ((k.out == 1) | (v == 0)) as u8,
        ..k
    }
}

fn count_rate(k: Count) -> Count
    ensures { result ≡ counted_rate k }
{
    if k.element == 1 {
        load_count(k, tables::load_out(Mode::RateGenerator))
    } else {
        let v = one_less(k.element);
        Count {
            element: v,
            out: (v != 1) as u8,
            ..k
        }
    }
}

#[tactic(auto, unfolding(crate::specs::Element::counted_by))]
fn count_by(m: Mode, k: Count) -> Count
    ensures { result ≡ counted_by m k }
{
    match m {
        Mode::TerminalCount => count_terminal(k),
        Mode::RateGenerator => count_rate(k),
    }
}

// The count that a control word sets.
pub fn first_count(m: Mode) -> Count
    ensures { result ≡ first_count m }
{
    Count {
        register: 0,
        element: 0,
        out: tables::first_out(m) as u8,
        waiting: 0,
        loaded: 0,
    }
}

// A byte of a count, the first of two or the last.
pub fn take_piece(m: Mode, k: Count, q: Piece) -> Count
    ensures { result ≡ piece_taken m k q }
{
    let out = (k.out == 1) & !tables::byte_stops(m);
    let waiting = tables::loads_at_once(m) | (k.loaded != 1);
    match q {
        Piece::First(_) => Count {
            out: out as u8,
            ..k
        },
        Piece::Whole(w) => Count {
            register: w,
            out: out as u8,
            waiting: waiting as u8,
            ..k
        },
    }
}

// OUT as GATE goes from `was` to `is`.
pub fn see_gate(m: Mode, was: bool, is: bool, k: Count) -> Count
    ensures { result ≡ gate_seen m was is k }
{
    let out = (k.out == 1) | tables::gate_raises(m) & (was & !is);
    Count {
        out: out as u8,
        ..k
    }
}

fn loads_on_pulse(m: Mode, trigger: bool, k: Count) -> bool
    ensures { result ≡ pulse_loads m trigger k }
{
    (k.waiting == 1) | (k.loaded == 1) & (tables::trigger_loads(m) & trigger)
}

fn counts_on_pulse(m: Mode, gate: bool, half: bool, k: Count) -> bool
    ensures { result ≡ pulse_counts m gate half k }
{
    (k.loaded == 1) & (gate & !(half & tables::byte_stops(m)))
}

// A CLK pulse loads, counts or does nothing.
pub fn take_pulse(m: Mode, gate: bool, trigger: bool, half: bool, k: Count) -> Count
    ensures { result ≡ pulse_taken m gate trigger half k }
{
    if loads_on_pulse(m, trigger, k) {
        load_count(k, tables::load_out(m))
    } else if counts_on_pulse(m, gate, half, k) {
        count_by(m, k)
    } else {
        k
    }
}

// Whether every flag is 0 or 1.
pub fn is_working(k: Count) -> bool
    ensures { result ≡ is_working_count k }
{
    // the bits that no flag has
    base::join_words(base::join_bytes(k.out, k.waiting), k.loaded) & 0xFFFEFEFE == 0
}
