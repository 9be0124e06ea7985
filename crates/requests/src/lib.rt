// The settings of requests and the request flags (manual 11.1, 11.2, Base + 6, 7, 8, 9).
#![tactic(auto)]

ghost use Rattle.std.specs.Prelude.{◌≡◌, ◌&&◌, ◌||◌};
ghost use Rattle.base.specs.Flags.{on, flag};
ghost use Rattle.requests.specs.Requests.{asked_ad, asked_latch, asked_timer, flags_cleared, asking};
ghost use Rattle.requests.specs.Registers.{written_depth, written_fifoen, written_enables, FIFORST, mode_bits, request_bits, fresh_requests};
ghost use Rattle.requests.specs.Working.{is_working_requests};

use converter::channels::Converter;

#[repr(C)]
#[derive(Clone, Copy)]
pub struct Flags {
    pub adint: u8,
    pub dint: u8,
    pub tint: u8,
}

#[repr(C)]
#[derive(Clone, Copy)]
pub struct Requests {
    pub threshold: u8,
    pub fifoen: u8,
    pub clksel: u8,
    pub adinte: u8,
    pub dinte: u8,
    pub tinte: u8,
    pub flags: Flags,
}

// No request flag is set.
const NO_FLAGS: Flags = Flags {
    adint: 0,
    dint: 0,
    tint: 0,
};

// A request flag after what asks for it has happened, or has not: it is set if it was, or if it happens with its enable bit set.
fn asked(set: u8, enable: u8, happens: bool) -> u8
    ensures { result ≡ flag (on set || on enable && happens) }
{
    ((set == 1) | ((enable == 1) & happens)) as u8
}

// After an end, kept or lost: `last` says that it is a single one or its scan's last, `held` how many samples are held then.
pub fn ask_ad(r: Requests, last: bool, held: u16) -> Requests
    ensures { result ≡ asked_ad r last held }
{
    let enough = (r.fifoen != 1) | (held >= 2 * (r.threshold as u16));
    let flags = Flags {
        adint: asked(r.flags.adint, r.adinte, last & enough),
        ..r.flags
    };
    Requests { flags, ..r }
}

// After the Latch pin changed: `rose` says that it went high.
pub fn ask_latch(r: Requests, rose: bool) -> Requests
    ensures { result ≡ asked_latch r rose }
{
    let flags = Flags {
        dint: asked(r.flags.dint, r.dinte, rose),
        ..r.flags
    };
    Requests { flags, ..r }
}

// After counter 0 moved: `fell` says that OUT0 went low.
pub fn ask_timer(r: Requests, fell: bool) -> Requests
    ensures { result ≡ asked_timer r fell }
{
    let flags = Flags {
        tint: asked(r.flags.tint, r.tinte, fell),
        ..r.flags
    };
    Requests { flags, ..r }
}

// Whether a request flag is set: while one is, the board asks for an interrupt.
pub fn is_asking(flags: Flags) -> bool
    ensures { result ≡ asking flags }
{
    (flags.adint == 1) | (flags.dint == 1) | (flags.tint == 1)
}

// INTRST: the three request flags clear.
pub fn clear(r: Requests) -> Requests
    ensures { result ≡ flags_cleared r }
{
    Requests {
        flags: NO_FLAGS,
        ..r
    }
}

// A write of 6: half the threshold.
pub fn write_depth(r: Requests, byte: u8) -> Requests
    ensures { result ≡ written_depth r byte }
{
    Requests {
        threshold: byte,
        ..r
    }
}

// A write of 7: FIFOEN.
pub fn write_fifoen(r: Requests, byte: u8) -> Requests
    ensures { result ≡ written_fifoen r byte }
{
    Requests {
        fifoen: byte / 8 % 2,
        ..r
    }
}

// A write of 7: whether it resets the sample memory.
pub fn is_fiforst(byte: u8) -> bool
    ensures { result ≡ FIFORST byte }
{
    byte / 2 % 2 == 1
}

// A write of 9: ADINTE, DINTE, TINTE, CLKSEL.
pub fn write_enables(r: Requests, byte: u8) -> Requests
    ensures { result ≡ written_enables r byte }
{
    Requests {
        adinte: byte / 128 % 2,
        dinte: byte / 64 % 2,
        tinte: byte / 32 % 2,
        clksel: byte % 2,
        ..r
    }
}

// FIFOEN and SCANEN as they stand in the byte read at 7.
pub fn mode_bits(c: Converter, r: Requests) -> u8
    ensures { result ≡ mode_bits c r }
{
    base::weight(r.fifoen == 1, 8) + base::weight(c.scanen == 1, 4)
}

// The byte read at 9: ADINT, DINT, TINT, CLKEN, CLKSEL.
pub fn request_bits(c: Converter, r: Requests) -> u8
    ensures { result ≡ request_bits c r }
{
    let flags = r.flags;
    base::weight(flags.adint == 1, 128)
        + base::weight(flags.dint == 1, 64)
        + base::weight(flags.tint == 1, 32)
        + base::weight(c.clken == 1, 2)
        + base::weight(r.clksel == 1, 1)
}

// A fresh board's record, and any board's after RESETA or RESETD.
pub fn fresh_requests() -> Requests
    ensures { result ≡ fresh_requests }
{
    Requests {
        threshold: 0,
        fifoen: 0,
        clksel: 0,
        adinte: 0,
        dinte: 0,
        tinte: 0,
        flags: NO_FLAGS,
    }
}

// Whether every flag is 0 or 1.
pub fn is_working(r: Requests) -> bool
    ensures { result ≡ is_working_requests r }
{
    let low = base::join_words(
        base::join_bytes(r.fifoen, r.clksel),
        base::join_bytes(r.adinte, r.dinte),
    );
    let high = base::join_words(
        base::join_bytes(r.tinte, r.flags.adint),
        base::join_bytes(r.flags.dint, r.flags.tint),
    );
    // the bits that no flag has
    base::join_longs(low, high) & 0xFEFEFEFEFEFEFEFE == 0
}
