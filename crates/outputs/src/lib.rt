// The analogue outputs (manual, chapters 13 and 14; Base+4 and Base+5): four 12-bit codes, the load that an update brings to
// one of them, and DACBUSY. Each function's contract is a definition of specs/Outputs.antt.
#![tactic(auto)]

ghost use Rattle.std.specs.Prelude.{◌≡◌};
ghost use Rattle.outputs.specs.Outputs.{reset_code, code_after, updated_codes, code_on, dacbusy, update_answer};
ghost use Rattle.outputs.specs.Outputs.{lsb_written, msb_written, updated, dac_ticked, reset_a, reset_d, reset_to, codes_with, load_of, level};
ghost use Rattle.outputs.specs.Working.{is_working_outputs};

// The 12-bit code of each output channel.
#[repr(C)]
#[derive(Clone, Copy)]
pub struct Codes {
    pub out0: u16,
    pub out1: u16,
    pub out2: u16,
    pub out3: u16,
}

// What the D/A chip's load register holds: whether anything was loaded since a reset, for which channel, and the code.
#[repr(C)]
#[derive(Clone, Copy)]
pub struct Load {
    pub loaded: u8,
    pub channel: u8,
    pub code: u16,
}

// The outputs: their codes, the load, the holding byte of Base+4, and the ticks of DACBUSY that are left.
#[repr(C)]
#[derive(Clone, Copy)]
pub struct Outputs {
    pub codes: Codes,
    pub load: Load,
    pub lsb: u8,
    pub busy: u8,
}

// ---- the parts

// The code after RESETA: mid-scale, or zero-scale by jumper.
fn scale(zero_scale: bool) -> u16
    ensures { result ≡ reset_code zero_scale }
{
    if zero_scale { 0 } else { 2048 }
}

// All outputs at one code.
fn all_at(code: u16) -> Codes
    ensures { result ≡ level code }
{
    Codes {
        out0: code,
        out1: code,
        out2: code,
        out3: code,
    }
}

// What output channel `own` holds once `channel` has taken `code`.
fn took_by(own: u8, old: u16, channel: u8, code: u16) -> u16
    ensures { result ≡ code_after own old channel code }
{
    if channel == own { code } else { old }
}

// Output `channel` takes `code`, the others keep theirs.
fn put_code(k: Codes, channel: u8, code: u16) -> Codes
    ensures { result ≡ codes_with k channel code }
{
    Codes {
        out0: took_by(0, k.out0, channel, code),
        out1: took_by(1, k.out1, channel, code),
        out2: took_by(2, k.out2, channel, code),
        out3: took_by(3, k.out3, channel, code),
    }
}

// What a write of Base+5 loads: the channel in bits 7-6, and the code whose bits 11-8 are the byte's bits 3-0 and whose bits
// 7-0 are the holding byte.
fn load_of(lsb: u8, v: u8) -> Load
    ensures { result ≡ load_of lsb v }
{
    Load {
        loaded: 1,
        channel: v / 64 % 4,
        code: ((v % 16) as u16) * 256 + (lsb as u16) % 256,
    }
}

// The outputs at some codes, with nothing loaded.
fn clear(codes: Codes) -> Outputs
    ensures { result ≡ reset_to codes }
{
    Outputs {
        codes,
        load: Load {
            loaded: 0,
            channel: 0,
            code: 0,
        },
        lsb: 0,
        busy: 0,
    }
}

// ---- the registers

// Whether DACBUSY is 1: then a write of Base+4 or Base+5 is refused, number 6.
pub fn is_busy(o: Outputs) -> bool
    ensures { result ≡ dacbusy o }
{
    o.busy > 0
}

// A write of Base+4: the holding byte.
pub fn write_lsb(o: Outputs, v: u8) -> Outputs
    ensures { result ≡ lsb_written o v }
{
    Outputs { lsb: v, ..o }
}

// A write of Base+5: the load, and DACBUSY for 100 ticks.
pub fn write_msb(o: Outputs, v: u8) -> Outputs
    ensures { result ≡ msb_written o v }
{
    Outputs {
        load: load_of(o.lsb, v),
        busy: 100,
        ..o
    }
}

// The codes after a read of Base+5.
fn update_codes(o: Outputs) -> Codes
    ensures { result ≡ updated_codes o }
{
    if (o.load.loaded == 1) & !is_busy(o) {
        put_code(o.codes, o.load.channel, o.load.code)
    } else {
        o.codes
    }
}

// A read of Base+5: the last loaded channel takes its code, unless DACBUSY is 1 or nothing was loaded since a reset.
pub fn update(o: Outputs) -> Outputs
    ensures { result ≡ updated o }
{
    Outputs {
        codes: update_codes(o),
        ..o
    }
}

// What a read of Base+5 answers.
pub fn update_byte(o: Outputs) -> u8
    ensures { result ≡ update_answer o }
{
    0
}

// ---- time, resets, and what a host sees

// One tick of DACBUSY.
pub fn tick(o: Outputs) -> Outputs
    ensures { result ≡ dac_ticked o }
{
    Outputs {
        busy: o.busy.saturating_sub(1),
        ..o
    }
}

// RESETA, and a fresh board's outputs.
pub fn reset_a(zero_scale: bool) -> Outputs
    ensures { result ≡ reset_a zero_scale }
{
    clear(all_at(scale(zero_scale)))
}

// RESETD: the codes stay.
pub fn reset_d(o: Outputs) -> Outputs
    ensures { result ≡ reset_d o }
{
    clear(o.codes)
}

// The code of output channel n; there is none above 3, which reads 0.
pub fn code_at(o: Outputs, n: u8) -> u16
    ensures { result ≡ code_on o.codes n }
{
    match n {
        0 => o.codes.out0,
        1 => o.codes.out1,
        2 => o.codes.out2,
        3 => o.codes.out3,
        _ => 0,
    }
}

// Whether these are a working board's outputs.
pub fn is_working(o: Outputs) -> bool
    ensures { result ≡ is_working_outputs o }
{
    let codes = base::join_longs(
        base::join_words(o.codes.out0, o.codes.out1),
        base::join_words(o.codes.out2, o.codes.out3),
    );
    let load = base::join_words(base::join_bytes(o.load.loaded, o.load.channel), o.load.code);
    // the bits above 11 of each code, and those that no flag and no channel has
    (codes & 0xF000F000F000F000 == 0) & (load & 0xF000FCFE == 0) & (o.busy <= 100)
}
