// What can happen to a board, and what it answers (the specification, "What is delivered").
#![tactic(auto)]

pub use ports::Port;

// The levels of DIN3-0, in bits 3-0.
#[derive(Clone, Copy)]
pub struct Din {
    pub lines: u32,
}

#[derive(Clone, Copy)]
pub enum Event {
    WriteByte { offset: u32, value: u8 },
    ReadByte { offset: u32 },
    ReadWord { offset: u32 },
    ConversionEnd { code: i16 },
    DinPins(Din),
    LatchLevel { level: u32 },
    PortPins(Port, u8),
    Tick,
    TransferEnd,
}

// In the order of the kinds that C hosts are told (numbers_answers). Nothing: a word was read, and no sample was there.
#[derive(Clone, Copy)]
pub enum Answer {
    Done,
    Byte(u8),
    Word(u16),
    Refused(u8),
    Nothing,
}
