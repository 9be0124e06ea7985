// The gates of the counters, and what a timer that moves brings about: specs/Clock.antt.
#![tactic(auto)]

ghost use Rattle.std.specs.Prelude.{◌≡◌};
ghost use Rattle.machine_clock.specs.Clock.{gates_at, gates, with_timer, timer_moved, timer_moved_by};

use base::Refusal;
use machine_record::{Board, Clocks};
use timer::{Gates, Timer};

// The gates at a byte of Base+10 and levels of DIN3-0.
pub fn gates_at(counting: u8, din: u8) -> Gates
    ensures { result ≡ gates_at counting din }
{
    Gates {
        gate0: !(counting / 4 % 2 == 1) | (din / 2 % 2 == 1),
        gate12: !(counting / 1 % 2 == 1) | (din / 4 % 2 == 1),
    }
}

// The gates as they stand.
pub fn gates_of(b: Board) -> Gates
    ensures { result ≡ gates b }
{
    gates_at(b.registers.counting, b.pins.din)
}

// The clocks with another timer.
pub fn put_timer(k: Clocks, t: Timer) -> Clocks
    ensures { result ≡ with_timer k t }
{
    let mut l = k;
    l.timer = t;
    l
}

// The timer becomes t: a falling OUT0 asks for TINT, a falling OUT2 may be a trigger.
#[tactic(auto, unfolding(crate::specs::Clock::timer_moved))]
pub fn move_timer(b: Board, t: Timer) -> Board
    ensures { result ≡ timer_moved b t }
{
    let s = b.clocks.timer;
    let fell0 = timer::has_fallen(s.counter0.count.out == 1, t.counter0.count.out == 1);
    let fell2 = timer::has_fallen(s.counter2.count.out == 1, t.counter2.count.out == 1);
    let mut c = b;
    c.converter = converter::channels::internal_trigger(b.converter, b.requests.clksel == 1, fell2);
    c.requests = requests::ask_timer(b.requests, fell0);
    c.clocks = put_timer(b.clocks, t);
    c
}

// The timer after a write of page 0; a refused one leaves the board.
pub fn move_timer_by(b: Board, w: Result<Timer, Refusal>) -> Board
    ensures { result ≡ timer_moved_by b w }
{
    match w {
        Ok(t) => move_timer(b, t),
        Err(_) => b,
    }
}
