// The usual bytes of a line, read by functions that follow one another: a letter, a space, a number and its end, and the value after an offset of W. Each is
// called in one place, so that the compiler can make one of them all. Where a byte is another one, or the piece ends, `read_on` reads on from there.
ghost use Rattle.std.specs.Prelude.{◌≡◌, ◌≤◌, length};
ghost use Rattle.session_reading.specs.declared.Reading.TheVariants.{Blank, Letter, Begun, Offset};
ghost use Rattle.session_reading.specs.Found.{Found};
ghost use Rattle.session_reading.specs.Whole.{number_after, so_far, DigitsRead};

use super::{Line, Number, Reading, bytes};

// A number, and the place after its digits.
#[derive(Clone, Copy)]
struct Numeral {
    n: u16,
    at: usize,
}

// After W, the offset and its space: two hex digits and a newline.
fn read_value(offset: u8, piece: &[u8], from: usize) -> Line
    requires { from ≤ length piece.now }
    ensures { Found (Offset offset) piece.now from result }
{
    if piece.len() - from > 2 {
        let high = session_digits::hex_of(piece[from]);
        let low = session_digits::hex_of(piece[from + 1]);
        if let (Some(high), Some(low), b'\n') = (high, low, piece[from + 2]) {
            return Line {
                reading: Reading::Whole(offset, high * 16 + low),
                end: from + 2,
            };
        }
    }
    bytes::read_on(piece, from, Reading::Offset(offset))
}

// The number that follows W, R or C.
#[tactic(auto, unfolding(crate::specs::Whole::number_after))]
fn number_of(letter: u8) -> Number
    ensures { result ≡ number_after letter }
{
    if letter == b'W' {
        Number::WriteOffset
    } else if letter == b'R' {
        Number::ReadOffset
    } else {
        Number::Code
    }
}

// What a line is whose number so far is n.
#[tactic(auto, unfolding(crate::specs::Whole::so_far))]
fn reading_of(letter: u8, n: u16) -> Reading
    ensures { result ≡ so_far (number_after letter) n }
{
    let number = number_of(letter);
    if n == 0 {
        Reading::Zero(number)
    } else {
        Reading::Digits(number, n)
    }
}

// After the number n: a newline, or a space and the value of W.
fn read_end(letter: u8, n: u16, piece: &[u8], from: usize) -> Line
    requires { from ≤ length piece.now }
    ensures { Found (so_far (number_after letter) n) piece.now from result }
{
    if from < piece.len() {
        let byte = piece[from];
        if byte == b'\n' {
            return Line {
                reading: reading_of(letter, n),
                end: from,
            };
        }
        if (byte == b' ') & (n <= 99) & (letter == b'W') {
            return read_value(n as u8, piece, from + 1);
        }
    }
    bytes::read_on(piece, from, reading_of(letter, n))
}

// The digits after a first one, as far as the number stays within 16 bits; none after a first 0.
fn more_digits(first: u8, piece: &[u8], from: usize) -> Numeral
    requires { from ≤ length piece.now }
    ensures { DigitsRead first piece.now from result }
{
    if first == 0 {
        return Numeral { n: 0, at: from };
    }
    let mut n = first as u32;
    for i in from..piece.len() {
        let digit = session_digits::digit_of(piece[i]).unwrap_or(10);
        if digit > 9 {
            return Numeral { n: n as u16, at: i };
        }
        let m = n * 10 + (digit as u32);
        if m > 65535 {
            return Numeral { n: n as u16, at: i };
        }
        n = m;
    }
    Numeral {
        n: n as u16,
        at: piece.len(),
    }
}

// After a letter and its space: the number, and what follows it.
fn read_begun(letter: u8, piece: &[u8], from: usize) -> Line
    requires { from ≤ length piece.now }
    ensures { Found (Begun (number_after letter)) piece.now from result }
{
    if from < piece.len() {
        let digit = session_digits::digit_of(piece[from]).unwrap_or(10);
        if digit < 10 {
            let numeral = more_digits(digit, piece, from + 1);
            return read_end(letter, numeral.n, piece, numeral.at);
        }
    }
    bytes::read_on(piece, from, Reading::Begun(number_of(letter)))
}

// After a letter: a space.
fn read_letter(letter: u8, piece: &[u8], from: usize) -> Line
    requires { from ≤ length piece.now }
    ensures { Found (Letter (number_after letter)) piece.now from result }
{
    if from < piece.len() && piece[from] == b' ' {
        read_begun(letter, piece, from + 1)
    } else {
        bytes::read_on(piece, from, Reading::Letter(number_of(letter)))
    }
}

// Where a line begins: the letter W, R or C.
pub fn read_blank(piece: &[u8], from: usize) -> Line
    requires { from ≤ length piece.now }
    ensures { Found Blank piece.now from result }
{
    if from < piece.len() {
        let byte = piece[from];
        if (byte == b'W') | (byte == b'R') | (byte == b'C') {
            return read_letter(byte, piece, from + 1);
        }
    }
    bytes::read_on(piece, from, Reading::Blank)
}
