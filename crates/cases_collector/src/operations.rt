// The operations of a case. Settings: lLLHH low and high, jHH jumpers, gHH range code, kHHHH clock, mHHHH poll limit. s starts with them. The record, as a host
// could lend it: i puts the settings into it; pHH phase, cHH next channel, oHHHH polls, dHHHH reads left. q shows the access; aHHHH brings a number and shows
// what is handed over, e brings nothing; nCCCCHHHH brings a number CCCC times and shows how many samples and gaps came before the last, and the last; h shows
// the record, f whether it is fit. zLLHHNNNN shows how many of N samples are whole scans of channels L to H, and the last of them.
ghost use Rattle.std.specs.Prelude.{◌≤◌};

use super::shows::Shown;
use cases::{Bench, Operation};
use collector::{BusAnswer, Collector, Handed, Settings};
use std::io;

#[derive(Clone, Copy)]
pub struct CollectorBench {
    settings: Settings,
    collector: Collector,
}

fn byte(value: u32) -> u8 {
    (value % 256) as u8
}

fn word(value: u32) -> u16 {
    (value % 65536) as u16
}

impl CollectorBench {
    // Channels 0 to 3 with jumpers A, range code 0, the external clock, 3 polls; no start was made, and the record is all zeros.
    pub fn fresh() -> CollectorBench {
        let none = Settings {
            low: 0,
            high: 0,
            jumpers: 0,
            range: 0,
            clock: 0,
            limit: 0,
        };
        CollectorBench {
            settings: Settings {
                high: 3,
                limit: 3,
                ..none
            },
            collector: Collector {
                settings: none,
                phase: 0,
                next: 0,
                polls: 0,
                left: 0,
            },
        }
    }

    fn start(&mut self, rt: &impl Print) -> io::Result<()> {
        match collector::start(self.settings) {
            Ok(collector) => {
                self.collector = collector;
                print!(rt; " ok")
            }
            Err(refusal) => print!(rt; "{}", Shown(refusal)),
        }
    }

    // Brings an answer.
    fn answer(&mut self, rt: &impl Print, brought: BusAnswer) -> io::Result<()> {
        let taken = collector::take_answer(self.collector, brought);
        self.collector = taken.collector;
        print!(rt; "{}", Shown(taken))
    }

    // Brings a number again and again. What comes before the last is counted.
    fn answers(&mut self, rt: &impl Print, count: u32, value: u32) -> io::Result<()> {
        let brought = BusAnswer::Number(word(value));
        let mut samples = 0u32;
        let mut gaps = 0u32;
        for _ in 1..count {
            let taken = collector::take_answer(self.collector, brought);
            self.collector = taken.collector;
            match taken.handed {
                Handed::OneSample(_) => samples = samples.saturating_add(1),
                Handed::LastSample(_) => {
                    samples = samples.saturating_add(1);
                    gaps = gaps.saturating_add(1);
                }
                Handed::Nothing | Handed::StartEnd | Handed::Refused(_) => {}
            }
        }
        print!(rt; " {samples}+{gaps}")?;
        self.answer(rt, brought)
    }

    fn show_fit(&self, rt: &impl Print) -> io::Result<()> {
        let fit = if collector::is_fit(self.collector) {
            "fit"
        } else {
            "unfit"
        };
        print!(rt; " {fit}")
    }
}

// How many of the samples 0, 1, 2 and so on up to n are whole scans, and the last of them.
fn show_scans(rt: &impl Print, n: usize, low: u32, high: u32) -> io::Result<()>
    requires { n ≤ 1024 }
{
    let mut samples = [0i16; 1024];
    for (sample, number) in samples.iter_mut().zip(0i16..1024) {
        *sample = number;
    }
    let scans = samples::whole_scans(&samples[..n], low, high);
    print!(rt; " {}", scans.len())?;
    if let Some(last) = scans.last() {
        print!(rt; ":{last}")?;
    }
    Ok(())
}

impl Bench for CollectorBench {
    fn operate<R: Print>(&mut self, rt: &R, operation: Operation) -> io::Result<()> {
        let value = operation.value;
        match operation.letter {
            b'l' => {
                self.settings.low = byte(value / 256);
                self.settings.high = byte(value);
            }
            b'j' => self.settings.jumpers = byte(value),
            b'g' => self.settings.range = byte(value),
            b'k' => self.settings.clock = word(value),
            b'm' => self.settings.limit = word(value),
            b'i' => self.collector.settings = self.settings,
            b'p' => self.collector.phase = byte(value),
            b'c' => self.collector.next = byte(value),
            b'o' => self.collector.polls = word(value),
            b'd' => self.collector.left = word(value),
            b's' => self.start(rt)?,
            b'q' => print!(rt; "{}", Shown(collector::access_of(self.collector)))?,
            b'a' => self.answer(rt, BusAnswer::Number(word(value)))?,
            b'e' => self.answer(rt, BusAnswer::Nothing)?,
            b'n' => self.answers(rt, value / 65536, value)?,
            b'h' => print!(rt; "{}", Shown(self.collector))?,
            b'f' => self.show_fit(rt)?,
            b'z' => show_scans(
                rt,
                (value % 65536 % 1025) as usize,
                value / 16777216,
                value / 65536 % 256,
            )?,
            _ => {}
        }
        Ok(())
    }

    fn renew(&mut self) {
        *self = CollectorBench::fresh();
    }
}
