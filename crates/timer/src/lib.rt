// The 82C54's three counters with their gates and the cascade (manual, chapters 17 and 19). Each event is a function on the three by
// value, total over any record, and its contract is a definition of specs/Timer.antt.
#![tactic(auto)]

pub mod accesses; // what the bus writes to and reads of the timer

ghost use Rattle.std.specs.Prelude.{◌≡◌};
ghost use Rattle.counter_one.specs.Falls.{fell};
ghost use Rattle.timer.specs.Timer.{unprogrammed_timer, counter_of, gate_of, out, put, cascaded, moved, clocked, clocked_if, gates_move, gates_moved};
ghost use Rattle.timer.specs.Working.{timer_flags_work, controls_work, is_working_timer};

use counter::Counter;

#[repr(C)]
#[derive(Clone, Copy)]
pub struct Timer {
    pub counter0: Counter,
    pub counter1: Counter,
    pub counter2: Counter,
}

// The GATE levels: counter 0's, and the one of counters 1 and 2.
#[repr(C)]
#[derive(Clone, Copy)]
pub struct Gates {
    pub gate0: bool,
    pub gate12: bool,
}

#[derive(Clone, Copy)]
pub enum Select {
    Counter0,
    Counter1,
    Counter2,
}

// The three counters before their first control words.
pub fn new() -> Timer
    ensures { result ≡ unprogrammed_timer }
{
    Timer {
        counter0: counter::new(),
        counter1: counter::new(),
        counter2: counter::new(),
    }
}

// One of the three.
pub fn counter_of(t: Timer, s: Select) -> Counter
    ensures { result ≡ counter_of t s }
{
    match s {
        Select::Counter0 => t.counter0,
        Select::Counter1 => t.counter1,
        Select::Counter2 => t.counter2,
    }
}

fn gate_of(g: Gates, s: Select) -> bool
    ensures { result ≡ gate_of g s }
{
    match s {
        Select::Counter0 => g.gate0,
        Select::Counter1 => g.gate12,
        Select::Counter2 => g.gate12,
    }
}

// OUT of a counter: a caller compares it before and after an event.
pub fn out_of(t: Timer, s: Select) -> bool
    ensures { result ≡ out t s }
{
    counter_of(t, s).count.out == 1
}

// Whether a level went from high to low.
pub fn has_fallen(was: bool, is: bool) -> bool
    ensures { result ≡ fell was is }
{
    was & !is
}

// The timer with another counter in its place.
pub fn put_counter(t: Timer, s: Select, d: Counter) -> Timer
    ensures { result ≡ put t s d }
{
    let mut u = t;
    match s {
        Select::Counter0 => u.counter0 = d,
        Select::Counter1 => u.counter1 = d,
        Select::Counter2 => u.counter2 = d,
    }
    u
}

// A falling OUT1 clocks counter 2: the only place that says so.
fn cascade(before: Timer, after: Timer, g: Gates) -> Timer
    ensures { result ≡ cascaded before after g }
{
    let mut u = after;
    if has_fallen(
        before.counter1.count.out == 1,
        after.counter1.count.out == 1,
    ) {
        u.counter2 = counter::pulse(after.counter2, g.gate12);
    }
    u
}

// A counter becomes another: the way of every change that may move an OUT.
#[tactic(auto, unfolding(crate::specs::Timer::moved))]
pub fn move_counter(t: Timer, s: Select, d: Counter, g: Gates) -> Timer
    ensures { result ≡ moved t s d g }
{
    cascade(t, put_counter(t, s, d), g)
}

fn clock(t: Timer, s: Select, g: Gates) -> Timer
    ensures { result ≡ clocked t s g }
{
    move_counter(t, s, counter::pulse(counter_of(t, s), gate_of(g, s)), g)
}

// A CLK pulse at a counter, where its clock source has one.
#[tactic(auto, unfolding(crate::specs::Timer::clocked_if))]
pub fn clock_if(t: Timer, s: Select, g: Gates, pulse: bool) -> Timer
    ensures { result ≡ clocked_if t s g pulse }
{
    if pulse { clock(t, s, g) } else { t }
}

// Whether a gate goes to another level.
pub fn do_gates_move(was: Gates, is: Gates) -> bool
    ensures { result ≡ gates_move was is }
{
    (was.gate0 & !is.gate0)
        | (!was.gate0 & is.gate0)
        | (was.gate12 & !is.gate12)
        | (!was.gate12 & is.gate12)
}

// The gates go from `was` to `is`.
#[tactic(auto, unfolding(crate::specs::Timer::gates_moved))]
pub fn move_gates(t: Timer, was: Gates, is: Gates) -> Timer
    ensures { result ≡ gates_moved t was is }
{
    Timer {
        counter0: counter::move_gate(t.counter0, was.gate0, is.gate0),
        counter1: counter::move_gate(t.counter1, was.gate12, is.gate12),
        counter2: counter::move_gate(t.counter2, was.gate12, is.gate12),
    }
}

// Whether every flag of the three counters is 0 or 1.
pub fn flags_work(t: Timer) -> bool
    ensures { result ≡ timer_flags_work t }
{
    counter::flags_work(t.counter0)
        & counter::flags_work(t.counter1)
        & counter::flags_work(t.counter2)
}

// Whether the control bits of each counter suit its count register and OUT.
pub fn controls_work(t: Timer) -> bool
    ensures { result ≡ controls_work t }
{
    let a = t.counter0;
    let b = t.counter1;
    let c = t.counter2;
    counter::control_works(a.control, a.count.register, a.count.out)
        && counter::control_works(b.control, b.count.register, b.count.out)
        && counter::control_works(c.control, c.count.register, c.count.out)
}

// Whether the three counters are a working board's.
pub fn is_working(t: Timer) -> bool
    ensures { result ≡ is_working_timer t }
{
    flags_work(t) && controls_work(t)
}
