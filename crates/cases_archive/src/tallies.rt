// The collector's side of a world: the collector, if there is one, how many samples it handed over, and how many events the board refused.
use archive_turns::Turned;
use board::Answer;
use collector::{Collector, Handed, Sample, Settings};
use std::{fmt, io};

#[derive(Clone, Copy)]
pub struct Tally {
    pub collector: Option<Collector>,
    samples: u64,
    refused: u64,
}

// The line at the end of a script.
impl fmt::Display for Tally {
    fn fmt<W: fmt::Write>(&self, f: &mut fmt::Formatter<W>) -> fmt::Result {
        let polls = self.collector.map_or(0, |c| c.polls);
        write!(
            f,
            "polls {polls} samples {} refused {}",
            self.samples, self.refused
        )
    }
}

// An answer in decimal, and - for what is no byte.
#[derive(Clone, Copy)]
pub struct Viewed(pub Answer);

impl fmt::Display for Viewed {
    fn fmt<W: fmt::Write>(&self, f: &mut fmt::Formatter<W>) -> fmt::Result {
        match self.0 {
            Answer::Byte(byte) => write!(f, "{byte}"),
            _ => f.write_str("-"),
        }
    }
}

// A sample: its channel and its code.
#[derive(Clone, Copy)]
struct Shown(Sample);

impl fmt::Display for Shown {
    fn fmt<W: fmt::Write>(&self, f: &mut fmt::Formatter<W>) -> fmt::Result {
        write!(f, "{} {}", self.0.channel, self.0.code)
    }
}

impl Tally {
    // No collector, and nothing counted.
    pub fn empty() -> Tally {
        Tally {
            collector: None,
            samples: 0,
            refused: 0,
        }
    }

    // A new collector, or a refusal, which is shown.
    pub fn start(&mut self, rt: &impl Print, settings: Settings) -> io::Result<()> {
        match collector::start(settings) {
            Ok(collector) => self.collector = Some(collector),
            Err(refusal) => println!(rt; "{refusal}")?,
        }
        Ok(())
    }

    // After an event: a refusal is counted.
    pub fn take_answer(&mut self, answer: Answer) {
        if let Answer::Refused(_) = answer {
            self.refused = self.refused.wrapping_add(1);
        }
    }

    // After a turn: the collector as it left it, and what it handed over, which is shown. Refusal 15 is a collector that is stuck.
    pub fn take_turn(&mut self, rt: &impl Print, turned: Turned) -> io::Result<()> {
        self.collector = Some(turned.collector);
        match turned.handed {
            Handed::Nothing | Handed::StartEnd => {}
            Handed::OneSample(sample) => {
                self.samples = self.samples.wrapping_add(1);
                println!(rt; "{}", Shown(sample))?;
            }
            Handed::LastSample(sample) => {
                self.samples = self.samples.wrapping_add(1);
                println!(rt; "{} gap {}", Shown(sample), turned.polls)?;
            }
            Handed::Refused(15) => println!(rt; "stuck")?,
            Handed::Refused(number) => println!(rt; "refused {number}")?,
        }
        Ok(())
    }
}
