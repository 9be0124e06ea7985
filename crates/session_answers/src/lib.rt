// What a line is answered by, written at a place of a lent slice.
#![tactic(auto)]

ghost use Rattle.std.specs.Prelude.{◌+◌, ◌≤◌, length};
ghost use Rattle.session_text.specs.Text.{Wrote};
ghost use Rattle.session_answers.specs.Answers.{byte_answer, word_answer, refusal_answer, answer_text, irq_text, event_text, bad_text};

use board_events::Answer;

fn put_byte_answer(v: u8, out: &mut [u8], at: usize) -> usize
    requires { at + 3 ≤ length out.old }
    ensures { Wrote (byte_answer v) out.old at out.new result }
{
    let next = session_text::copy(b" ", out, at);
    session_text::put_byte(v, out, next)
}

fn put_word_answer(v: u16, out: &mut [u8], at: usize) -> usize
    requires { at + 5 ≤ length out.old }
    ensures { Wrote (word_answer v) out.old at out.new result }
{
    let next = session_text::copy(b" ", out, at);
    session_text::put_word(v, out, next)
}

fn put_refusal(n: u8, out: &mut [u8], at: usize) -> usize
    requires { at + 29 ≤ length out.old }
    ensures { Wrote (refusal_answer n) out.old at out.new result }
{
    let next = session_text::copy(b" refused ", out, at);
    session_text::put_decimal(n as u64, out, next)
}

#[tactic(auto, unfolding(crate::specs::Answers::answer_text))]
fn put_answer(answer: Answer, out: &mut [u8], at: usize) -> usize
    requires { at + 29 ≤ length out.old }
    ensures { Wrote (answer_text answer) out.old at out.new result }
{
    match answer {
        Answer::Done => session_text::copy(b" ok", out, at),
        Answer::Byte(v) => put_byte_answer(v, out, at),
        Answer::Word(v) => put_word_answer(v, out, at),
        Answer::Nothing => session_text::copy(b" empty", out, at),
        Answer::Refused(n) => put_refusal(n, out, at),
    }
}

fn put_irq(raised: bool, out: &mut [u8], at: usize) -> usize
    requires { at + 4 ≤ length out.old }
    ensures { Wrote (irq_text raised) out.old at out.new result }
{
    if raised {
        session_text::copy(b" irq", out, at)
    } else {
        at
    }
}

// The whole line for an event: its number, the answer, and whether the flags went from none to some.
pub fn put_event(number: u64, answer: Answer, raised: bool, out: &mut [u8], at: usize) -> usize
    requires { at + 64 ≤ length out.old }
    ensures { Wrote (event_text number answer raised) out.old at out.new result }
{
    let first = session_text::put_decimal(number, out, at);
    let second = put_answer(answer, out, first);
    let third = put_irq(raised, out, second);
    session_text::copy(b"\n", out, third)
}

// The whole line for another line.
pub fn put_bad(number: u64, out: &mut [u8], at: usize) -> usize
    requires { at + 64 ≤ length out.old }
    ensures { Wrote (bad_text number) out.old at out.new result }
{
    let first = session_text::put_decimal(number, out, at);
    session_text::copy(b" bad\n", out, first)
}
