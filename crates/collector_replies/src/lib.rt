// What an answer leads to: specs/Reply.antt. The bounds that some functions require hold of every fit record.
#![tactic(auto)]

ghost use Rattle.std.specs.Prelude.{◌≡◌, ◌<◌, true};
ghost use Rattle.collector_phases.specs.Fit.{fit};
ghost use Rattle.collector_phases.specs.Phases.{phase_number};
ghost use Rattle.collector_records.specs.Records.{entered};
ghost use Rattle.collector_steps.specs.Reads.{reports};
ghost use Rattle.collector_replies.specs.Reply.{after_write, after_number, answered, staying, replied_in, replied};

use base::Refusal;
use collector_answers::BusAnswer;
use collector_phases::{Access, Collector, Phase};
use collector_steps::{Handed, Taken};

// The record in its next phase, and what is handed over.
fn proceed(c: Collector, next: Phase, handed: Handed) -> Taken
    ensures { result ≡ reports (entered c (phase_number next)) handed }
{
    collector_steps::report(collector_records::enter(c, next as u8), handed)
}

// After a write, whose answer isn't looked at.
fn after_write(p: Phase, c: Collector) -> Taken
    ensures { result ≡ after_write p c }
{
    match p {
        Phase::Stop => proceed(c, Phase::Poll, Handed::Nothing),
        Phase::Range => proceed(c, Phase::Clear, Handed::Nothing),
        Phase::Clear => proceed(c, Phase::Low, Handed::Nothing),
        Phase::Low => proceed(c, Phase::High, Handed::Nothing),
        Phase::High => proceed(c, Phase::Go, Handed::Nothing),
        Phase::Go => proceed(c, Phase::Look, Handed::StartEnd),
        _ => collector_steps::report(c, Handed::Nothing),
    }
}

// A number that is not refused.
fn after_number(p: Phase, c: Collector, a: u16) -> Taken
    requires { (c.polls < 65535) × (c.next < 255) }
    ensures { result ≡ after_number p c a }
{
    match p {
        Phase::Poll => collector_steps::report(collector_steps::answer_poll(c, a), Handed::Nothing),
        Phase::Look => collector_steps::report(collector_steps::answer_look(c, a), Handed::Nothing),
        Phase::Take => collector_steps::answer_take(c, a),
        Phase::Drain => collector_steps::answer_drain(c, a),
        _ => after_write(p, c),
    }
}

// What came, where no check of the collector refuses it.
fn advance(p: Phase, c: Collector, a: BusAnswer) -> Taken
    requires { (c.polls < 65535) × (c.next < 255) }
    ensures { result ≡ answered p c a }
{
    match a {
        BusAnswer::Number(number) => after_number(p, c, number),
        BusAnswer::Nothing => after_write(p, c),
        BusAnswer::Refused(number) => collector_steps::report(c, Handed::Refused(number)),
    }
}

// What stays after a refusal: stuck at the last poll, else unchanged.
fn stay(n: u8, x: Result<Access, Refusal>, c: Collector) -> Collector
    requires { c.polls < 65535 }
    ensures { result ≡ staying n x c }
{
    if (n == 15) & collector_refusals::is_poll(x) {
        collector_records::count(c, Phase::Stuck as u8)
    } else {
        c
    }
}

// The answer to a fit record.
#[tactic(auto, using(crate::specs::Joined::room))]
fn reply(p: Phase, c: Collector, a: BusAnswer) -> Taken
    requires { fit c ≡ true }
    ensures { result ≡ replied_in p c a }
{
    let x = collector_phases::access_in(p, c.settings);
    let n = collector_refusals::refusal_of(x, c, a);
    if n == 0 {
        advance(p, c, a)
    } else {
        collector_steps::report(stay(n, x, c), Handed::Refused(n))
    }
}

// Takes what came of the access that the record names.
#[tactic(auto, unfolding(crate::specs::Reply::replied))]
pub fn take_answer(c: Collector, answer: BusAnswer) -> Taken
    ensures { result ≡ replied c answer }
{
    if collector_phases::is_fit(c) {
        reply(collector_phases::phase_of(c.phase), c, answer)
    } else {
        collector_steps::report(c, Handed::Refused(1))
    }
}
