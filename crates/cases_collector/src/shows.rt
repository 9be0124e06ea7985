// What the operations of a case show of a value, each after a space.
use base::Refusal;
use collector::{Access, Collector, Handed, Sample, Taken};
use std::fmt;

#[derive(Clone, Copy)]
pub struct Shown<T>(pub T);

// ! and its number.
impl fmt::Display for Shown<Refusal> {
    fn fmt<W: fmt::Write>(&self, f: &mut fmt::Formatter<W>) -> fmt::Result {
        write!(f, " !{}", self.0.number)
    }
}

// Its channel, = and its code.
impl fmt::Display for Shown<Sample> {
    fn fmt<W: fmt::Write>(&self, f: &mut fmt::Formatter<W>) -> fmt::Result {
        write!(f, " {}={}", self.0.channel, self.0.code)
    }
}

// W offset=value, R offset, X offset, or a refusal.
impl fmt::Display for Shown<Result<Access, Refusal>> {
    fn fmt<W: fmt::Write>(&self, f: &mut fmt::Formatter<W>) -> fmt::Result {
        match self.0 {
            Ok(Access::WriteByte { offset, value }) => write!(f, " W{offset}={value}"),
            Ok(Access::ReadByte { offset }) => write!(f, " R{offset}"),
            Ok(Access::ReadWord { offset }) => write!(f, " X{offset}"),
            Err(refusal) => write!(f, "{}", Shown(refusal)),
        }
    }
}

// - for nothing, run for the end of a start, a sample, a sample with | for the gap, or a refusal.
impl fmt::Display for Shown<Handed> {
    fn fmt<W: fmt::Write>(&self, f: &mut fmt::Formatter<W>) -> fmt::Result {
        match self.0 {
            Handed::Nothing => f.write_str(" -"),
            Handed::StartEnd => f.write_str(" run"),
            Handed::OneSample(sample) => write!(f, "{}", Shown(sample)),
            Handed::LastSample(sample) => write!(f, "{}|", Shown(sample)),
            Handed::Refused(number) => write!(f, "{}", Shown(Refusal { number })),
        }
    }
}

// What is handed over, / and the polls.
impl fmt::Display for Shown<Taken> {
    fn fmt<W: fmt::Write>(&self, f: &mut fmt::Formatter<W>) -> fmt::Result {
        write!(f, "{}/{}", Shown(self.0.handed), self.0.polls)
    }
}

// Phase, next channel, polls, reads left.
impl fmt::Display for Shown<Collector> {
    fn fmt<W: fmt::Write>(&self, f: &mut fmt::Formatter<W>) -> fmt::Result {
        let c = self.0;
        write!(f, " {}.{}.{}.{}", c.phase, c.next, c.polls, c.left)
    }
}
