// What the answer to a read leads to: specs/Reads.antt. The bounds that some functions require hold of every fit record.
#![tactic(auto)]

ghost use Rattle.std.specs.Prelude.{◌≡◌, ◌<◌};
ghost use Rattle.collector_steps.specs.Reads.{reports, polled, looked, took, drained};

use collector_phases::{Collector, Phase};
use samples::Sample;

// What is handed over: nothing, the end of a start, a sample, the last sample of a drain with the gap that it marks, or a refusal.
#[derive(Clone, Copy)]
pub enum Handed {
    Nothing,
    StartEnd,
    OneSample(Sample),
    LastSample(Sample),
    Refused(u8),
}

// The collector after an answer, the polls of the current start (with a gap, of the start that ends), and what is handed over.
#[derive(Clone, Copy)]
pub struct Taken {
    pub collector: Collector,
    pub polls: u16,
    pub handed: Handed,
}

// What is handed over, with the polls of the current start.
pub fn report(d: Collector, h: Handed) -> Taken
    ensures { result ≡ reports d h }
{
    Taken {
        collector: d,
        polls: d.polls,
        handed: h,
    }
}

// The answer of a poll.
pub fn answer_poll(c: Collector, a: u16) -> Collector
    requires { c.polls < 65535 }
    ensures { result ≡ polled c a }
{
    if collector_answers::is_converting(a) {
        collector_records::count(c, Phase::Poll as u8)
    } else {
        collector_records::count(c, Phase::Range as u8)
    }
}

// The answer of a look.
pub fn answer_look(c: Collector, a: u16) -> Collector
    ensures { result ≡ looked c a }
{
    if collector_answers::is_empty(a) {
        c
    } else if collector_answers::is_full(a) {
        collector_records::drain(c)
    } else {
        collector_records::enter(c, Phase::Take as u8)
    }
}

// The answer of a word read in a drain.
pub fn answer_drain(c: Collector, a: u16) -> Taken
    requires { c.next < 255 }
    ensures { result ≡ drained c a }
{
    let y = collector_answers::sample_of(c.next, a);
    if c.left <= 1 {
        Taken {
            collector: collector_records::begin(c.settings),
            polls: c.polls,
            handed: Handed::LastSample(y),
        }
    } else {
        report(
            collector_records::pass(c, Phase::Drain as u8, c.left - 1),
            Handed::OneSample(y),
        )
    }
}

// The answer of a word read after a look.
pub fn answer_take(c: Collector, a: u16) -> Taken
    requires { c.next < 255 }
    ensures { result ≡ took c a }
{
    let y = collector_answers::sample_of(c.next, a);
    report(
        collector_records::pass(c, Phase::Look as u8, c.left),
        Handed::OneSample(y),
    )
}
