// Which answers are refused: specs/Refusals.antt.
#![tactic(auto)]

ghost use Rattle.std.specs.Prelude.{◌≡◌, Ok, [], ◌∷◌};
ghost use Rattle.base.specs.Checks.{◌refuses◌, refusal};
ghost use Rattle.collector_phases.specs.declared.Access.TheVariants.{ReadByte};
ghost use Rattle.collector_phases.specs.Phases.{is_none, reads};
ghost use Rattle.collector_answers.specs.Answers.{is_nothing};
ghost use Rattle.collector_answers.specs.declared.BusAnswer.TheVariants.{Number};
ghost use Rattle.collector_refusals.specs.Refusals.{last_poll, read_answer_checks};

use base::Refusal;
use collector_answers::BusAnswer;
use collector_phases::{Access, Collector};

// Whether this poll is the last that the limit allows.
fn is_last_poll(c: Collector) -> bool
    ensures { result ≡ last_poll c }
{
    c.settings.limit as u32 <= c.polls as u32 + 1
}

// The number by which a number that came of a byte read is refused, or 0.
fn number_refusal(offset: u8, c: Collector, a: u16) -> u8
    ensures { result ≡ refusal (read_answer_checks (Ok (ReadByte offset)) c (Number a)) }
{
    if collector_answers::is_wide(a) {
        17
    } else if (offset == 8) & collector_answers::is_converting(a) & is_last_poll(c) {
        15
    } else {
        0
    }
}

// The number by which the answer to a byte read is refused, or 0: the board's own refusal is not looked at here.
fn byte_refusal(offset: u8, c: Collector, a: BusAnswer) -> u8
    ensures { result ≡ refusal (read_answer_checks (Ok (ReadByte offset)) c a) }
{
    match a {
        BusAnswer::Number(number) => number_refusal(offset, c, number),
        BusAnswer::Nothing => 17,
        BusAnswer::Refused(_) => 0,
    }
}

// The number by which the answer to a word read is refused, or 0.
fn word_refusal(a: BusAnswer) -> u8
    ensures { result ≡ refusal (is_nothing a refuses 20 ∷ []) }
{
    match a {
        BusAnswer::Nothing => 20,
        BusAnswer::Number(_) | BusAnswer::Refused(_) => 0,
    }
}

// The number by which the answer to an access of a fit record is refused, or 0.
pub fn refusal_of(x: Result<Access, Refusal>, c: Collector, a: BusAnswer) -> u8
    ensures { result ≡ refusal (is_none x refuses 15 ∷ read_answer_checks x c a) }
{
    match x {
        Ok(Access::WriteByte { .. }) => 0,
        Ok(Access::ReadByte { offset }) => byte_refusal(offset, c, a),
        Ok(Access::ReadWord { .. }) => word_refusal(a),
        Err(_) => 15,
    }
}

// Whether the access is a poll.
pub fn is_poll(x: Result<Access, Refusal>) -> bool
    ensures { result ≡ reads 8 x }
{
    match x {
        Ok(Access::WriteByte { .. }) => false,
        Ok(Access::ReadByte { offset }) => offset == 8,
        Ok(Access::ReadWord { .. }) => false,
        Err(_) => false,
    }
}
