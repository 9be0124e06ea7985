// What all crates share stands in specs/: choices by a test, the fields of a byte, rows of tests, numbers side by side. The functions make a bit of
// a byte that is read, and put two numbers side by side into one of twice the width, the first in its low bits. A refusal is an error, by its number.
#![tactic(auto)]

ghost use Rattle.std.specs.Prelude.{◌≡◌, ◌+◌, ◌*◌, ◌≤◌};
ghost use Rattle.base.specs.Weights.{weight_of};

use std::error::Error;
use std::fmt;

// What is refused, by its number in the table of the specification.
#[derive(Clone, Copy, Debug, PartialEq, Eq)]
pub struct Refusal {
    pub number: u8,
}

impl fmt::Display for Refusal {
    fn fmt<W: fmt::Write>(&self, f: &mut fmt::Formatter<W>) -> fmt::Result {
        write!(f, "refused {}", self.number)
    }
}

impl Error for Refusal {}

// The weight w of a bit that is set, else 0.
pub fn weight(set: bool, w: u8) -> u8
    ensures { (result ≡ weight_of set w) × (result ≤ w) }
{
    if set { w } else { 0 }
}

// Two bytes side by side.
pub fn join_bytes(low: u8, high: u8) -> u16
    ensures { result ≡ high * 256 + low }
{
    (high as u16) * 256 + (low as u16)
}

// Two numbers of 16 bits side by side.
pub fn join_words(low: u16, high: u16) -> u32
    ensures { result ≡ high * 65536 + low }
{
    (high as u32) * 65536 + (low as u32)
}

// Two numbers of 32 bits side by side.
pub fn join_longs(low: u32, high: u32) -> u64
    ensures { result ≡ high * 4294967296 + low }
{
    (high as u64) * 4294967296 + (low as u64)
}
