// The formulas, passed on: an archive has the marked functions of its own crate alone.
ghost use Rattle.std.specs.Prelude.{◌≡◌, ℤ};
ghost use Rattle.volts.specs.Volts.{input_voltage_of, voltage};
ghost use Rattle.volts.specs.Host.{plain_refusal, plain_volts};
ghost use Rattle.codes.specs.Output.{AnswersCode, bytes_of, as_number, span_of};

// The volts of an A/D code at a range code; a NaN where the range code is refused.
#[unsafe(no_mangle)]
pub extern "C" fn dmm32_volts(code: i16, range: u32) -> f64
    ensures { result ≡ plain_volts (voltage (input_voltage_of code range)) }
{
    volts::host::dmm32_volts(code, range)
}

// 13 where the range code is refused, which no A/D code changes; else 0.
#[unsafe(no_mangle)]
pub extern "C" fn dmm32_volts_refusal(range: u32) -> u32
    ensures { (code : ℤ) → result ≡ plain_refusal (voltage (input_voltage_of code range)) }
{
    volts::host::dmm32_volts_refusal(range)
}

// Microvolts as the nearest 12-bit code of an output range, halves upward.
#[unsafe(no_mangle)]
pub extern "C" fn dmm32_output_code(microvolts: i32, range: u32) -> u32
    ensures { AnswersCode result (span_of range) microvolts }
{
    codes::dmm32_output_code(microvolts, range)
}

// The two bytes that load the nearest code on a channel: the LSB, for Base + 4, and 256 times the MSB, for Base + 5.
#[unsafe(no_mangle)]
pub extern "C" fn dmm32_output_bytes(microvolts: i32, range: u32, channel: u32) -> u32
    ensures { result ≡ as_number (bytes_of microvolts range channel) }
{
    codes::dmm32_output_bytes(microvolts, range, channel)
}
