// Samples of the A/D converter: the record of one, the channels and range codes that none can come from (specs/Refused.antt), and whole scans of
// them (specs/Scans.antt).
#![tactic(auto)]

ghost use Rattle.std.specs.Prelude.{◌≡◌};
ghost use Rattle.samples.specs.Refused.{bad_range, code_refused};
ghost use Rattle.samples.specs.Scans.{WholePart};

// A sample that is handed over: its channel and its signed code.
#[repr(C)]
#[derive(Clone, Copy)]
pub struct Sample {
    pub channel: u16,
    pub code: i16,
}

// A bad range of channels: low above high, or high above 31.
pub fn is_bad_range(low: u32, high: u32) -> bool
    ensures { result ≡ bad_range low high }
{
    (high < low) | (31 < high)
}

// Range code 4-7 or above 15: 13.
pub fn refuses_code(code: u8) -> bool
    ensures { result ≡ code_refused code }
{
    ((4 <= code) & (code <= 7)) | (15 < code)
}

// The leading part of the samples that holds whole scans of the channels from low to high.
pub fn whole_scans(samples: &[i16], low: u32, high: u32) -> &[i16]
    ensures { WholePart samples.now low high result.now }
{
    if is_bad_range(low, high) {
        &samples[..0]
    } else {
        let width = (high - low) as usize + 1;
        let n = samples.len();
        let end = n - n % width;
        &samples[..end]
    }
}
