// Text written into a lent slice: each function gets the place to write at and answers the place after it.
#![tactic(auto)]

ghost use Rattle.std.specs.Prelude.{◌+◌, ◌≤◌, length};
ghost use Rattle.session_text.specs.Text.{byte_text, word_text, decimal_text, Spells, Wrote};

// Decimal digits, at the end of the array from `from` on.
#[derive(Clone, Copy)]
pub struct Decimal {
    pub digits: [u8; 20],
    pub from: usize,
}

// Writes the text at `at`.
pub fn copy(text: &[u8], out: &mut [u8], at: usize) -> usize
    requires { at + length text.now ≤ length out.old }
    ensures { Wrote text.now out.old at out.new result }
{
    let n = text.len();
    for i in 0..n {
        out[at + i] = text[i];
    }
    at + n
}

// The decimal digits of n, from the last one to the first.
fn spell(n: u64) -> Decimal
    ensures { Spells n result }
{
    let mut digits = [48u8; 20];
    let mut from: usize = 19;
    let mut left = n;
    while left > 9 {
        digits[from] = 48 + (left % 10) as u8;
        left /= 10;
        from -= 1;
    }
    digits[from] = 48 + left as u8;
    Decimal { digits, from }
}

// A number in decimal digits.
pub fn put_decimal(n: u64, out: &mut [u8], at: usize) -> usize
    requires { at + 20 ≤ length out.old }
    ensures { Wrote (decimal_text n) out.old at out.new result }
{
    let spelled = spell(n);
    copy(&spelled.digits[spelled.from..], out, at)
}

// A byte in two hex capitals.
pub fn put_byte(v: u8, out: &mut [u8], at: usize) -> usize
    requires { at + 2 ≤ length out.old }
    ensures { Wrote (byte_text v) out.old at out.new result }
{
    let text = [
        session_digits::hex_digit(v / 16),
        session_digits::hex_digit(v),
    ];
    copy(&text, out, at)
}

// A word in four hex capitals.
pub fn put_word(v: u16, out: &mut [u8], at: usize) -> usize
    requires { at + 4 ≤ length out.old }
    ensures { Wrote (word_text v) out.old at out.new result }
{
    let text = [
        session_digits::hex_digit((v / 4096) as u8),
        session_digits::hex_digit((v / 256) as u8),
        session_digits::hex_digit((v / 16 % 256) as u8),
        session_digits::hex_digit((v % 256) as u8),
    ];
    copy(&text, out, at)
}
