// The collector's record and its phases: the bus access that each names, and what each asks of the record. specs/Phases.antt, specs/Fit.antt and
// specs/Accesses.antt.
#![tactic(auto)]

ghost use Rattle.std.specs.Prelude.{◌≡◌};
ghost use Rattle.collector_phases.specs.Phases.{phase_of, access_in};
ghost use Rattle.collector_phases.specs.Fit.{fit_in, fit};
ghost use Rattle.collector_phases.specs.Accesses.{access_of};

use base::Refusal;
use collector_settings::Settings;

// The record: the phase as a number (specs/Phases.antt), the channel of the next sample, the polls of the current start, and the word reads
// that are left of a drain.
#[repr(C)]
#[derive(Clone, Copy)]
pub struct Collector {
    pub settings: Settings,
    pub phase: u8,
    pub next: u8,
    pub polls: u16,
    pub left: u16,
}

// The phases. Start: 9←0, read 8, 11←range code, 7←02, 2←low, 3←high, 9←02 or 03. Then look (read 7), take (a word read), drain (512 word
// reads). Stuck: the polls are used up. Unknown: a number that is no phase.
#[derive(Clone, Copy)]
pub enum Phase {
    Stop,
    Poll,
    Range,
    Clear,
    Low,
    High,
    Go,
    Look,
    Take,
    Drain,
    Stuck,
    Unknown,
}

// The one bus access of a phase.
#[derive(Clone, Copy)]
pub enum Access {
    WriteByte { offset: u8, value: u8 },
    ReadByte { offset: u8 },
    ReadWord { offset: u8 },
}

// The phase that a number of the record stands for.
#[tactic(auto, unfolding(crate::specs::Phases::phase_of))]
pub fn phase_of(n: u8) -> Phase
    ensures { result ≡ phase_of n }
{
    match n {
        0 => Phase::Stop,
        1 => Phase::Poll,
        2 => Phase::Range,
        3 => Phase::Clear,
        4 => Phase::Low,
        5 => Phase::High,
        6 => Phase::Go,
        7 => Phase::Look,
        8 => Phase::Take,
        9 => Phase::Drain,
        10 => Phase::Stuck,
        _ => Phase::Unknown,
    }
}

// The access that a phase names. A stuck collector names none (15), nor does an unknown phase (1).
pub fn access_in(p: Phase, s: Settings) -> Result<Access, Refusal>
    ensures { result ≡ access_in p s }
{
    match p {
        Phase::Stop => Ok(Access::WriteByte {
            offset: 9,
            value: 0,
        }),
        Phase::Poll => Ok(Access::ReadByte { offset: 8 }),
        Phase::Range => Ok(Access::WriteByte {
            offset: 11,
            value: s.range,
        }),
        Phase::Clear => Ok(Access::WriteByte {
            offset: 7,
            value: 2,
        }),
        Phase::Low => Ok(Access::WriteByte {
            offset: 2,
            value: s.low,
        }),
        Phase::High => Ok(Access::WriteByte {
            offset: 3,
            value: s.high,
        }),
        Phase::Go => Ok(Access::WriteByte {
            offset: 9,
            value: collector_settings::clock_byte(s),
        }),
        Phase::Look => Ok(Access::ReadByte { offset: 7 }),
        Phase::Take | Phase::Drain => Ok(Access::ReadWord { offset: 0 }),
        Phase::Stuck => Err(Refusal { number: 15 }),
        Phase::Unknown => Err(Refusal { number: 1 }),
    }
}

// Whether the record has what the phase asks of it.
pub fn fits(p: Phase, c: Collector) -> bool
    ensures { result ≡ fit_in p c }
{
    match p {
        Phase::Stop => c.polls == 0,
        Phase::Poll => c.polls < c.settings.limit,
        Phase::Drain => (1 <= c.left) & (c.left <= 512),
        Phase::Unknown => false,
        _ => true,
    }
}

// Whether the record is fit.
#[tactic(auto, unfolding(crate::specs::Fit::fit))]
pub fn is_fit(c: Collector) -> bool
    ensures { result ≡ fit c }
{
    let s = c.settings;
    (collector_settings::start_refusal(s) == 0)
        & (s.low <= c.next)
        & (c.next <= s.high)
        & (c.polls <= s.limit)
        & fits(phase_of(c.phase), c)
}

// The access that the collector makes now, or the refusal 1 or 15.
#[tactic(auto, unfolding(crate::specs::Accesses::access_of))]
pub fn access_of(c: Collector) -> Result<Access, Refusal>
    ensures { result ≡ access_of c }
{
    if is_fit(c) {
        access_in(phase_of(c.phase), c.settings)
    } else {
        Err(Refusal { number: 1 })
    }
}
