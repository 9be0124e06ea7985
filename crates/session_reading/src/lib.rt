// A line of a session, of which what is kept has a fixed size, whatever the line's length.
#![tactic(auto)]

pub mod bytes; // whatever the bytes are
mod whole; // the usual bytes, where a line begins

ghost use Rattle.std.specs.Prelude.{◌≡◌, ◌≤◌, length};
ghost use Rattle.session_reading.specs.Found.{Found};
ghost use Rattle.session_reading.specs.Whole.{is_blank};

// The number that a line has after its letter: the offset of W, that of R, the code of C, and that code after its minus.
#[derive(Clone, Copy)]
pub enum Number {
    WriteOffset,
    ReadOffset,
    Code,
    MinusCode,
}

// What the bytes of a line so far are.
#[derive(Clone, Copy)]
pub enum Reading {
    // nothing
    Blank,
    // W, R or C
    Letter(Number),
    // all before the number's first digit
    Begun(Number),
    // the number is 0
    Zero(Number),
    // the number's digits so far, the first of them not 0
    Digits(Number, u16),
    // W, the offset and its space
    Offset(u8),
    // the same with the value's first digit
    HalfValue(u8, u8),
    // a whole line of W
    Whole(u8, u8),
    // X
    Single,
    // no line begins so
    Spoiled,
}

// What a line's bytes are, and where the newline stands, or the piece's end.
#[derive(Clone, Copy)]
pub struct Line {
    pub reading: Reading,
    pub end: usize,
}

// Whether no byte of the line is read.
#[tactic(auto, unfolding(crate::specs::Whole::is_blank))]
fn is_blank(reading: Reading) -> bool
    ensures { result ≡ is_blank reading }
{
    matches!(reading, Reading::Blank)
}

// Reads from the byte `from` of the piece to the next newline, or to the piece's end.
pub fn read_line(piece: &[u8], from: usize, reading: Reading) -> Line
    requires { from ≤ length piece.now }
    ensures { Found reading piece.now from result }
{
    if is_blank(reading) {
        whole::read_blank(piece, from)
    } else {
        bytes::read_on(piece, from, reading)
    }
}
