// The collector's record as a start makes it and as an answer changes it: specs/Records.antt. The bounds that some functions require hold of every
// fit record.
#![tactic(auto)]

ghost use Rattle.std.specs.Prelude.{◌≡◌, ◌<◌};
ghost use Rattle.collector_records.specs.Records.{first_record, start_of, entered, poll_counted, draining, following, passed};

use base::Refusal;
use collector_phases::{Collector, Phase};
use collector_settings::Settings;

// The first record of a start.
pub fn begin(s: Settings) -> Collector
    ensures { result ≡ first_record s }
{
    Collector {
        settings: s,
        phase: Phase::Stop as u8,
        next: s.low,
        polls: 0,
        left: 0,
    }
}

// A collector for these settings, or the refusal 14, 11, 12 or 13.
#[tactic(auto, unfolding(crate::specs::Records::start_of))]
pub fn start(settings: Settings) -> Result<Collector, Refusal>
    ensures { result ≡ start_of settings }
{
    let number = collector_settings::start_refusal(settings);
    if number == 0 {
        Ok(begin(settings))
    } else {
        Err(Refusal { number })
    }
}

// The record in another phase.
pub fn enter(c: Collector, phase: u8) -> Collector
    ensures { result ≡ entered c phase }
{
    Collector { phase, ..c }
}

// The record in another phase, with a poll counted.
pub fn count(c: Collector, phase: u8) -> Collector
    requires { c.polls < 65535 }
    ensures { result ≡ poll_counted c phase }
{
    Collector {
        phase,
        polls: c.polls + 1,
        ..c
    }
}

// The channel after the next sample's.
fn follow(c: Collector) -> u8
    requires { c.next < 255 }
    ensures { result ≡ following c }
{
    if c.next == c.settings.high {
        c.settings.low
    } else {
        c.next + 1
    }
}

// The record after a sample has left.
pub fn pass(c: Collector, phase: u8, left: u16) -> Collector
    requires { c.next < 255 }
    ensures { result ≡ passed c phase left }
{
    Collector {
        phase,
        next: follow(c),
        left,
        ..c
    }
}

// 512 word reads are left.
pub fn drain(c: Collector) -> Collector
    ensures { result ≡ draining c }
{
    Collector {
        phase: Phase::Drain as u8,
        left: 512,
        ..c
    }
}
