// The two sums of request M-112, as a check: specs/Tally.antt. They may go past 64 bits.
ghost use Rattle.std.specs.Prelude.{◌+◌, ◌≡◌, eqb};
ghost use Rattle.tally_counts.specs.Counts.{in_progress};
ghost use Rattle.tally.specs.Tally.{adds_up};

use super::Tally;
use board::Board;

// Whether a sum of two counts is one of four.
fn are_equal(a: u64, b: u64, c: u64, d: u64, e: u64, f: u64) -> bool
    ensures { result ≡ eqb (a + b) (c + d + e + f) }
{
    a as u128 + b as u128 == c as u128 + d as u128 + e as u128 + f as u128
}

fn in_progress(b: Board) -> u64
    ensures { result ≡ in_progress b }
{
    (b.converter.converting == 1) as u64
}

// Whether both sums hold of a tally that began as zeros with the board `first` and stands with the board `last`.
pub fn adds_up(tally: Tally, first: Board, last: Board) -> bool
    ensures { result ≡ adds_up tally first last }
{
    let samples = are_equal(
        tally.ended,
        first.fifo.held as u64,
        tally.read,
        last.fifo.held as u64,
        tally.lost,
        tally.cleared,
    );
    let conversions = are_equal(
        tally.begun,
        in_progress(first),
        tally.ended,
        tally.abandoned,
        in_progress(last),
        0,
    );
    samples & conversions
}
