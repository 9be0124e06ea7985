// Digits of a session's text: the value of a digit, and the digit of a value.
#![tactic(auto)]

ghost use Rattle.std.specs.Prelude.{◌≡◌};
ghost use Rattle.session_digits.specs.Digits.{digit_of, hex_of, hex_digit};

// The value of a decimal digit; none for another byte.
#[tactic(auto, unfolding(crate::specs::Digits::digit_of))]
pub fn digit_of(byte: u8) -> Option<u8>
    ensures { result ≡ digit_of byte }
{
    if byte.is_ascii_digit() {
        Some(byte - b'0')
    } else {
        None
    }
}

// The value of a hex digit of either case; none for another byte.
#[tactic(auto, unfolding(crate::specs::Digits::hex_of))]
pub fn hex_of(byte: u8) -> Option<u8>
    ensures { result ≡ hex_of byte }
{
    match byte {
        b'0'..=b'9' => Some(byte - b'0'),
        b'A'..=b'F' | b'a'..=b'f' => Some(byte % 16 + 9),
        _ => None,
    }
}

// The capital hex digit of the low four bits.
pub fn hex_digit(n: u8) -> u8
    ensures { result ≡ hex_digit n }
{
    if n % 16 < 10 {
        48 + n % 16
    } else {
        55 + n % 16
    }
}
