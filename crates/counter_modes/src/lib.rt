// The control word of a counter, and what the modes that it chooses differ in (manual, chapter 19: the data sheet).
#![tactic(auto)]

pub mod control;
pub mod tables;

#[derive(Clone, Copy)]
pub enum Mode {
    TerminalCount,
    RateGenerator,
}

// How the bytes of a count come and go.
#[derive(Clone, Copy)]
pub enum Format {
    LeastByte,
    MostByte,
    TwoBytes,
}

// What a control word asks of its counter.
#[derive(Clone, Copy)]
pub enum ControlCommand {
    LatchCount,
    Program(Format, Mode),
    NotModelled,
}
