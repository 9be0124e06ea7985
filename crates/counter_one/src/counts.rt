// A byte of a count that the bus writes to a counter: whether it is refused, and the counter after it (specs/Counter.antt).
ghost use Rattle.std.specs.Prelude.{◌≡◌};
ghost use Rattle.counter_one.specs.Counter.{piece_refused, byte_refused, piece_written, offered, byte_written};

use crate::Counter;
use counter_bytes::Piece;
use counter_modes::{Mode, control, tables};

fn refuses_piece(m: Mode, q: Piece) -> bool
    ensures { result ≡ piece_refused m q }
{
    match q {
        Piece::First(_) => false,
        Piece::Whole(n) => tables::from_two(m) & (n == 1),
    }
}

// Whether a byte of a count is refused.
#[tactic(auto, unfolding(crate::specs::Counter::byte_refused))]
pub fn refuses_byte(c: Counter, byte: u8) -> bool
    ensures { result ≡ byte_refused c byte }
{
    match control::setup_of(c.control) {
        None => true,
        Some((f, m)) => refuses_piece(m, counter_bytes::piece_of(f, c.bus, byte)),
    }
}

fn write_piece(m: Mode, c: Counter, q: Piece) -> Counter
    ensures { result ≡ piece_written m c q }
{
    Counter {
        count: counter_element::take_piece(m, c.count, q),
        bus: counter_bytes::after_write(c.bus, q),
        ..c
    }
}

fn offer(m: Mode, c: Counter, q: Piece) -> Counter
    ensures { result ≡ offered m c q }
{
    if refuses_piece(m, q) {
        c
    } else {
        write_piece(m, c, q)
    }
}

// A written byte of a count. A refused one leaves the counter.
#[tactic(auto, unfolding(crate::specs::Counter::byte_written))]
pub fn write_byte(c: Counter, byte: u8) -> Counter
    ensures { result ≡ byte_written c byte }
{
    match control::setup_of(c.control) {
        None => c,
        Some((f, m)) => offer(m, c, counter_bytes::piece_of(f, c.bus, byte)),
    }
}
