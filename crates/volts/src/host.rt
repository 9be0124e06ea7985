// The volts for C hosts, on plain numbers. Any number is taken for a range code: one that has no volts answers a NaN and its refusal.
ghost use Rattle.std.specs.Prelude.{◌≡◌, ℤ};
ghost use Rattle.volts.specs.Volts.{input_voltage_of, voltage};
ghost use Rattle.volts.specs.Host.{plain_refusal, plain_volts};

use crate::Voltage;

// The bits of the f64 that is infinite.
const INFINITE: u64 = 0x7FF0_0000_0000_0000;

// `volts` for a range code of any size.
fn answer(code: i16, range: u32) -> Voltage
    ensures { result ≡ voltage (input_voltage_of code range) }
{
    match u8::try_from(range) {
        Ok(range) => crate::volts(code, range),
        Err(_) => Voltage::Refused(13),
    }
}

// The volts of an A/D code at a range code; a NaN, which an infinity times 0.0 is, where the range code is refused.
#[unsafe(no_mangle)]
pub extern "C" fn dmm32_volts(code: i16, range: u32) -> f64
    ensures { result ≡ plain_volts (voltage (input_voltage_of code range)) }
{
    match answer(code, range) {
        Voltage::Volts(x) => x,
        Voltage::Refused(_) => f64::from_bits(INFINITE) * 0.0,
    }
}

// 13 where the range code is refused, which no A/D code changes; else 0.
#[unsafe(no_mangle)]
pub extern "C" fn dmm32_volts_refusal(range: u32) -> u32
    ensures { (code : ℤ) → result ≡ plain_refusal (voltage (input_voltage_of code range)) }
{
    match answer(0, range) {
        Voltage::Volts(_) => 0,
        Voltage::Refused(number) => number as u32,
    }
}
