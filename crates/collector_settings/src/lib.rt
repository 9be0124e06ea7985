// What a start of the collector is given, and what of it is refused: specs/Settings.antt.
#![tactic(auto)]

ghost use Rattle.std.specs.Prelude.{◌≡◌};
ghost use Rattle.base.specs.Checks.{refusal};
ghost use Rattle.collector_settings.specs.Settings.{lacking, limit_refused, range_checks, start_refusal, clock_byte};

// What a start is given. Jumpers: 0 is A, 1 is B, 2 is C, 3 is D, and no other number has a channel (refusal 12). Range: the range code of
// Base + 11. Clock: 0 is the external one, any other number the internal one. Limit: the polls that a start may make.
#[repr(C)]
#[derive(Clone, Copy)]
pub struct Settings {
    pub low: u8,
    pub high: u8,
    pub jumpers: u8,
    pub range: u8,
    pub clock: u16,
    pub limit: u16,
}

// Whether the range includes a channel that the jumpers lack: 12.
fn lacks(jumpers: u8, low: u8, high: u8) -> bool
    ensures { result ≡ lacking jumpers low high }
{
    match jumpers {
        0 => 31 < high,
        1 => 15 < high,
        2 => (31 < high) | ((15 < high) & (low < 24)),
        3 => 23 < high,
        _ => true,
    }
}

// Poll limit 0 or above 1,000: 14.
fn refuses_limit(limit: u16) -> bool
    ensures { result ≡ limit_refused limit }
{
    (limit == 0) | (1000 < limit)
}

fn range_refusal(s: Settings) -> u8
    ensures { result ≡ refusal (range_checks s) }
{
    if samples::is_bad_range(s.low as u32, s.high as u32) {
        11
    } else if lacks(s.jumpers, s.low, s.high) {
        12
    } else if samples::refuses_code(s.range) {
        13
    } else {
        0
    }
}

// The number by which a start is refused, or 0.
#[tactic(auto, unfolding(crate::specs::Settings::start_refusal))]
pub fn start_refusal(s: Settings) -> u8
    ensures { result ≡ start_refusal s }
{
    if refuses_limit(s.limit) {
        14
    } else {
        range_refusal(s)
    }
}

// The byte for 9 that ends a start.
pub fn clock_byte(s: Settings) -> u8
    ensures { result ≡ clock_byte s }
{
    if s.clock == 0 { 2 } else { 3 }
}
