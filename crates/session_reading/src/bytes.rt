// A line read byte after byte, whatever its bytes are: specs/Reading.antt.
ghost use Rattle.std.specs.Prelude.{◌≡◌, ◌≤◌, length};
ghost use Rattle.session_reading.specs.Reading.{first_taken, letter_taken, minus_taken, begun_taken, number_ended, zero_taken, grown, digit_taken};
ghost use Rattle.session_reading.specs.Reading.{first_hex_taken, second_hex_taken, taken};
ghost use Rattle.session_reading.specs.Found.{Found};

use super::{Line, Number, Reading};

fn take_first(byte: u8) -> Reading
    ensures { result ≡ first_taken byte }
{
    match byte {
        b'W' => Reading::Letter(Number::WriteOffset),
        b'R' => Reading::Letter(Number::ReadOffset),
        b'C' => Reading::Letter(Number::Code),
        b'X' => Reading::Single,
        _ => Reading::Spoiled,
    }
}

fn take_letter(number: Number, byte: u8) -> Reading
    ensures { result ≡ letter_taken number byte }
{
    if byte == b' ' {
        Reading::Begun(number)
    } else {
        Reading::Spoiled
    }
}

fn take_minus(number: Number) -> Reading
    ensures { result ≡ minus_taken number }
{
    match number {
        Number::Code => Reading::Begun(Number::MinusCode),
        _ => Reading::Spoiled,
    }
}

fn take_begun(number: Number, byte: u8) -> Reading
    ensures { result ≡ begun_taken number byte }
{
    if byte == b'-' {
        return take_minus(number);
    }
    match session_digits::digit_of(byte) {
        Some(0) => Reading::Zero(number),
        Some(digit) => Reading::Digits(number, digit as u16),
        None => Reading::Spoiled,
    }
}

// A space after the number n: a value follows an offset of W, and nothing else has a second field.
fn end_number(number: Number, n: u16) -> Reading
    ensures { result ≡ number_ended number n }
{
    match number {
        Number::WriteOffset if n <= 99 => Reading::Offset(n as u8),
        _ => Reading::Spoiled,
    }
}

fn take_zero(number: Number, byte: u8) -> Reading
    ensures { result ≡ zero_taken number byte }
{
    if byte == b' ' {
        end_number(number, 0)
    } else {
        Reading::Spoiled
    }
}

// One more digit. A number that leaves 16 bits is above every limit.
fn grow(number: Number, n: u16, digit: u8) -> Reading
    ensures { result ≡ grown number n digit }
{
    let m = (n as u32) * 10 + (digit as u32);
    if m <= 65535 {
        Reading::Digits(number, m as u16)
    } else {
        Reading::Spoiled
    }
}

fn take_digit(number: Number, n: u16, byte: u8) -> Reading
    ensures { result ≡ digit_taken number n byte }
{
    if byte == b' ' {
        return end_number(number, n);
    }
    match session_digits::digit_of(byte) {
        Some(digit) => grow(number, n, digit),
        None => Reading::Spoiled,
    }
}

fn take_first_hex(offset: u8, byte: u8) -> Reading
    ensures { result ≡ first_hex_taken offset byte }
{
    match session_digits::hex_of(byte) {
        Some(digit) => Reading::HalfValue(offset, digit),
        None => Reading::Spoiled,
    }
}

fn take_second_hex(offset: u8, high: u8, byte: u8) -> Reading
    ensures { result ≡ second_hex_taken offset high byte }
{
    match session_digits::hex_of(byte) {
        Some(digit) => Reading::Whole(offset, high % 16 * 16 + digit),
        None => Reading::Spoiled,
    }
}

// The next byte of the line.
#[tactic(auto, unfolding(crate::specs::Reading::taken))]
pub fn take(reading: Reading, byte: u8) -> Reading
    ensures { result ≡ taken reading byte }
{
    match reading {
        Reading::Blank => take_first(byte),
        Reading::Letter(number) => take_letter(number, byte),
        Reading::Begun(number) => take_begun(number, byte),
        Reading::Zero(number) => take_zero(number, byte),
        Reading::Digits(number, n) => take_digit(number, n, byte),
        Reading::Offset(offset) => take_first_hex(offset, byte),
        Reading::HalfValue(offset, high) => take_second_hex(offset, high, byte),
        Reading::Whole(_, _) => Reading::Spoiled,
        Reading::Single => Reading::Spoiled,
        Reading::Spoiled => Reading::Spoiled,
    }
}

// Reads on from the byte `from` of the piece to the next newline, or to the piece's end.
pub fn read_on(piece: &[u8], from: usize, mut reading: Reading) -> Line
    requires { from ≤ length piece.now }
    ensures { Found reading piece.now from result }
{
    for i in from..piece.len() {
        let byte = piece[i];
        if byte == b'\n' {
            return Line { reading, end: i };
        }
        reading = take(reading, byte);
    }
    Line {
        reading,
        end: piece.len(),
    }
}
