// An A/D code as volts (manual, chapter 9). The C forms are in host.rt.
#![tactic(auto)]

ghost use Rattle.std.specs.Prelude.{◌≡◌};
ghost use Rattle.volts.specs.Table.{row_of};
ghost use Rattle.volts.specs.Volts.{AnswersVolts, input_voltage_of, scale_of};

pub mod host;

// The volts, or the number of the refusal.
#[derive(Clone, Copy)]
pub enum Voltage {
    Volts(f64),
    Refused(u8),
}

// What a range code selects: a polarity with its full-scale voltage.
#[derive(Clone, Copy)]
enum Scale {
    Bipolar(f64),
    Unipolar(f64),
}

// The full-scale voltages of the table in chapter 9.2, by range code; none where the table calls the setting invalid.
const SCALES: [Option<Scale>; 16] = [
    Some(Scale::Bipolar(5.0)),
    Some(Scale::Bipolar(2.5)),
    Some(Scale::Bipolar(1.25)),
    Some(Scale::Bipolar(0.625)),
    None,
    None,
    None,
    None,
    Some(Scale::Bipolar(10.0)),
    Some(Scale::Bipolar(5.0)),
    Some(Scale::Bipolar(2.5)),
    Some(Scale::Bipolar(1.25)),
    Some(Scale::Unipolar(10.0)),
    Some(Scale::Unipolar(5.0)),
    Some(Scale::Unipolar(2.5)),
    Some(Scale::Unipolar(1.25)),
];

// 2 ^ -15 and 2 ^ -16, the exact reciprocals: a multiplication by one is the manual's division, bit by bit.
const ONE_BY_32768: f64 = 1.0 / 32768.0;

const ONE_BY_65536: f64 = 1.0 / 65536.0;

// The scale of a range code: its row's full scale is the row's range over its gain.
fn full_scale_of(range: u8) -> Option<Scale>
    ensures { result ≡ scale_of (row_of range) }
{
    let scale = SCALES.get(range as usize)?;
    *scale
}

// The volts of an A/D code at a range code (the number written to Base + 11): code * FS / 32768 where the range is bipolar,
// (code + 32768) * FS / 65536 where it is unipolar. A range code 4 to 7 or above 15 is refusal 13. No operation rounds.
pub fn volts(code: i16, range: u8) -> Voltage
    ensures { AnswersVolts result (input_voltage_of code range) }
{
    match full_scale_of(range) {
        Some(Scale::Bipolar(full_scale)) => Voltage::Volts(code as f64 * full_scale * ONE_BY_32768),
        Some(Scale::Unipolar(full_scale)) => {
            Voltage::Volts((code as i32 + 32768) as f64 * full_scale * ONE_BY_65536)
        }
        None => Voltage::Refused(13),
    }
}
