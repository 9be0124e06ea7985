// Channels, triggers and ends of conversions (manual 10.1, 11.3, 11.4, Base + 0, 2, 3, 7, 8, 9).
ghost use Rattle.std.specs.Prelude.{◌≡◌, ◌+◌, ◌%◌};
ghost use Rattle.converter.specs.Channels.{next_channel, started, triggered, software_triggered, internal_triggered, external_triggered, is_last};
ghost use Rattle.converter.specs.Registers.{written_low, written_high, written_scanen, written_clken, status_bits, fresh_converter};
ghost use Rattle.converter.specs.Working.{is_working_converter};

#[repr(C)]
#[derive(Clone, Copy)]
pub struct Converter {
    pub low: u8,
    pub high: u8,
    pub selected: u8,
    pub channel: u8,
    pub converting: u8,
    pub scanen: u8,
    pub clken: u8,
}

// The channel that is selected after `selected`: high goes to low, else one up, 31 to 0.
pub fn next_channel(low: u8, high: u8, selected: u8) -> u8
    ensures { result ≡ next_channel low high selected }
{
    if selected == high {
        low
    } else if selected >= 31 {
        0
    } else {
        selected + 1
    }
}

// A conversion of the selected channel starts, and the selection moves.
pub fn start(c: Converter) -> Converter
    ensures { result ≡ started c }
{
    Converter {
        channel: c.selected,
        selected: next_channel(c.low, c.high, c.selected),
        converting: 1,
        ..c
    }
}

// A trigger, where there is one: it starts a conversion unless one runs.
pub fn trigger(c: Converter, triggers: bool) -> Converter
    ensures { result ≡ triggered c triggers }
{
    if triggers & (c.converting != 1) {
        start(c)
    } else {
        c
    }
}

// A write of 0: a trigger, ignored while CLKEN is set.
pub fn software_trigger(c: Converter) -> Converter
    ensures { result ≡ software_triggered c }
{
    trigger(c, c.clken != 1)
}

// The internal clock: with CLKEN and CLKSEL a fall of OUT2 is a trigger.
pub fn internal_trigger(c: Converter, clksel: bool, out2: bool) -> Converter
    ensures { result ≡ internal_triggered c clksel out2 }
{
    trigger(c, (c.clken == 1) & clksel & out2)
}

// The external clock: with CLKEN and without CLKSEL a fall of DIN3 is a trigger; `stopped` says that GT12EN is set with DIN2 low.
pub fn external_trigger(c: Converter, clksel: bool, din3: bool, stopped: bool) -> Converter
    ensures { result ≡ external_triggered c clksel din3 stopped }
{
    trigger(c, (c.clken == 1) & !clksel & din3 & !stopped)
}

// Whether an end now is a single one or the last of its scan.
pub fn is_last(c: Converter) -> bool
    ensures { result ≡ is_last c }
{
    !((c.scanen == 1) & (c.channel != c.high))
}

// A write of 2: the low channel, which becomes the selected one.
pub fn write_low(c: Converter, byte: u8) -> Converter
    ensures { result ≡ written_low c byte }
{
    Converter {
        low: byte % 32,
        selected: byte % 32,
        ..c
    }
}

// A write of 3: the high channel; low becomes the selected one.
pub fn write_high(c: Converter, byte: u8) -> Converter
    ensures { result ≡ written_high c byte }
{
    Converter {
        high: byte % 32,
        selected: c.low,
        ..c
    }
}

// A write of 7: SCANEN.
pub fn write_scanen(c: Converter, byte: u8) -> Converter
    ensures { result ≡ written_scanen c byte }
{
    Converter {
        scanen: byte / 4 % 2,
        ..c
    }
}

// A write of 9: CLKEN.
pub fn write_clken(c: Converter, byte: u8) -> Converter
    ensures { result ≡ written_clken c byte }
{
    Converter {
        clken: byte / 2 % 2,
        ..c
    }
}

// STS and the selected channel as they stand in the byte read at 8.
pub fn status_bits(c: Converter) -> u8
    ensures { result ≡ status_bits c }
{
    base::weight(c.converting == 1, 128) + c.selected % 32
}

// A fresh board's record, and any board's after RESETA or RESETD.
pub fn fresh_converter() -> Converter
    ensures { result ≡ fresh_converter }
{
    Converter {
        low: 0,
        high: 0,
        selected: 0,
        channel: 0,
        converting: 0,
        scanen: 0,
        clken: 0,
    }
}

// Whether every channel is one of the 32, and every flag 0 or 1.
pub fn is_working(c: Converter) -> bool
    ensures { result ≡ is_working_converter c }
{
    let joined = base::join_words(
        base::join_bytes(c.low, c.high),
        base::join_bytes(c.selected, c.channel),
    );
    // the bits above 4 of each channel
    (joined & 0xE0E0E0E0 == 0) & (c.converting <= 1) & (c.scanen <= 1) & (c.clken <= 1)
}
