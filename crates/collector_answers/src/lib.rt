// How what came of a bus access is read: specs/Answers.antt.
#![tactic(auto)]

ghost use Rattle.std.specs.Prelude.{◌≡◌};
ghost use Rattle.collector_answers.specs.Answers.{wide, STS, EF, FF, sample_at};

use samples::Sample;

// What came of an access: the number that the bus brought (a byte, a word, or for a write anything), nothing, where a word was read and none was there, or
// the number by which the board refused it.
#[derive(Clone, Copy)]
pub enum BusAnswer {
    Number(u16),
    Refused(u8),
    Nothing,
}

// A number above 255, which is no byte.
pub fn is_wide(a: u16) -> bool
    ensures { result ≡ wide a }
{
    255 < a
}

// STS of Base + 8: a conversion is in progress.
pub fn is_converting(a: u16) -> bool
    ensures { result ≡ STS a }
{
    a / 128 % 2 == 1
}

// EF of Base + 7: the memory is empty.
pub fn is_empty(a: u16) -> bool
    ensures { result ≡ EF a }
{
    a / 128 % 2 == 1
}

// FF of Base + 7: the memory is full.
pub fn is_full(a: u16) -> bool
    ensures { result ≡ FF a }
{
    a / 32 % 2 == 1
}

// The sample of a word.
pub fn sample_of(channel: u8, a: u16) -> Sample
    ensures { result ≡ sample_at channel a }
{
    Sample {
        channel: channel as u16,
        code: converter::codes::code(a),
    }
}
