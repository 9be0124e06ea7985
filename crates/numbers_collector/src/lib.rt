// The collector by value, in records of numbers, for hosts in other languages (include/cowriestep.h): so that the exported functions only pass them on.
#![tactic(auto)]

ghost use Rattle.std.specs.Prelude.{◌≡◌, length};
ghost use Rattle.collector_records.specs.Records.{start_of};
ghost use Rattle.collector_phases.specs.Accesses.{access_of};
ghost use Rattle.collector_replies.specs.Reply.{replied};
ghost use Rattle.collector.specs.Handed.{handed_refusal};
ghost use Rattle.samples.specs.Scans.{whole_scans};
ghost use Rattle.numbers_collector.specs.Collecting.{no_collector, start_answer, access_named, bus_answer, sample_handed, kind_handed, taken_answer};

use base::Refusal;
use collector::{Access, BusAnswer, Collector, Handed, Sample, Settings, Taken};

// A start: the record and 0, or no record and the refusal.
#[repr(C)]
#[derive(Clone, Copy)]
pub struct StartAnswer {
    pub collector: Collector,
    pub refusal: u16,
}

// The access that is named: 0 none, 1 byte write, 2 byte read, 3 word read.
#[repr(C)]
#[derive(Clone, Copy)]
pub struct AccessNamed {
    pub kind: u8,
    pub offset: u8,
    pub value: u8,
    pub refusal: u8,
}

// What came of an access: 0 the number that the bus brought, 2 nothing; any other kind is a refusal of the board.
#[repr(C)]
#[derive(Clone, Copy)]
pub struct BusNumbers {
    pub number: u16,
    pub kind: u8,
    pub refusal: u8,
}

// The collector's record after an answer, the polls, and what is handed over: 0 nothing, 1 the end of a start, 2 a sample, 3 the last one of a drain, 4 a
// refusal.
#[repr(C)]
#[derive(Clone, Copy)]
pub struct TakenAnswer {
    pub collector: Collector,
    pub polls: u16,
    pub handed: u8,
    pub refusal: u8,
    pub sample: Sample,
}

// The record of a start that is refused: zeros, which no start makes.
fn no_collector() -> Collector
    ensures { result ≡ no_collector }
{
    Collector {
        settings: Settings {
            low: 0,
            high: 0,
            jumpers: 0,
            range: 0,
            clock: 0,
            limit: 0,
        },
        phase: 0,
        next: 0,
        polls: 0,
        left: 0,
    }
}

fn answer_start(s: Result<Collector, Refusal>) -> StartAnswer
    ensures { result ≡ start_answer s }
{
    match s {
        Ok(collector) => StartAnswer {
            collector,
            refusal: 0,
        },
        Err(refusal) => StartAnswer {
            collector: no_collector(),
            refusal: refusal.number as u16,
        },
    }
}

// A collector for these settings, or the refusal 14, 11, 12 or 13.
pub fn start(settings: Settings) -> StartAnswer
    ensures { result ≡ start_answer (start_of settings) }
{
    answer_start(collector::start(settings))
}

fn name_access(x: Result<Access, Refusal>) -> AccessNamed
    ensures { result ≡ access_named x }
{
    match x {
        Ok(Access::WriteByte { offset, value }) => AccessNamed {
            kind: 1,
            offset,
            value,
            refusal: 0,
        },
        Ok(Access::ReadByte { offset }) => AccessNamed {
            kind: 2,
            offset,
            value: 0,
            refusal: 0,
        },
        Ok(Access::ReadWord { offset }) => AccessNamed {
            kind: 3,
            offset,
            value: 0,
            refusal: 0,
        },
        Err(refusal) => AccessNamed {
            kind: 0,
            offset: 0,
            value: 0,
            refusal: refusal.number,
        },
    }
}

// The access that the collector makes now, or the refusal 1 or 15.
pub fn access(c: Collector) -> AccessNamed
    ensures { result ≡ access_named (access_of c) }
{
    name_access(collector::access_of(c))
}

fn kind_handed(h: Handed) -> u8
    ensures { result ≡ kind_handed h }
{
    match h {
        Handed::Nothing => 0,
        Handed::StartEnd => 1,
        Handed::OneSample(_) => 2,
        Handed::LastSample(_) => 3,
        Handed::Refused(_) => 4,
    }
}

fn refusal_handed(h: Handed) -> u8
    ensures { result ≡ handed_refusal h }
{
    match h {
        Handed::Refused(number) => number,
        _ => 0,
    }
}

fn sample_handed(h: Handed) -> Sample
    ensures { result ≡ sample_handed h }
{
    let none = Sample {
        channel: 0,
        code: 0,
    };
    match h {
        Handed::OneSample(s) => s,
        Handed::LastSample(s) => s,
        _ => none,
    }
}

// What the collector answers, in numbers.
pub fn in_numbers(t: Taken) -> TakenAnswer
    ensures { result ≡ taken_answer t }
{
    TakenAnswer {
        collector: t.collector,
        polls: t.polls,
        handed: kind_handed(t.handed),
        refusal: refusal_handed(t.handed),
        sample: sample_handed(t.handed),
    }
}

fn bus_answer(brought: BusNumbers) -> BusAnswer
    ensures { result ≡ bus_answer brought }
{
    if brought.kind == 0 {
        BusAnswer::Number(brought.number)
    } else if brought.kind == 2 {
        BusAnswer::Nothing
    } else {
        BusAnswer::Refused(brought.refusal)
    }
}

// Takes what came of that access.
pub fn take(c: Collector, brought: BusNumbers) -> TakenAnswer
    ensures { result ≡ taken_answer (replied c (bus_answer brought)) }
{
    in_numbers(collector::take_answer(c, bus_answer(brought)))
}

// How many of the samples, from the front, are the part that holds whole scans.
pub fn whole_length(samples: &[i16], low: u32, high: u32) -> usize
    ensures { result ≡ length (whole_scans samples.now low high) }
{
    samples::whole_scans(samples, low, high).len()
}
