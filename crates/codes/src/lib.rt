// Output codes for C hosts, as plain numbers (manual, chapters 13 and 14.1 to 14.3): a number below 65536, or 65536 and the number of the refusal.
// The output ranges are 0: ±5 V, 1: ±10 V, 2: 0-5 V, 3: 0-10 V. The channels are 0 to 3.
#![tactic(auto)]

ghost use Rattle.std.specs.Prelude.{◌≡◌, ◌≤◌, ◌<◌};
ghost use Rattle.codes.specs.Output.{AnswersCode, bytes_of, as_number, span_of, span};

// Refusal 18: the voltage is below the range, or its code above 4095.
const OUT_OF_RANGE: u32 = 65536 + 18;

// Refusal 19: no such output range or channel.
const UNKNOWN: u32 = 65536 + 19;

// The nearest code in a range that starts `below` microvolts below 0 V and has a swing of `swing` microvolts.
fn code_in(microvolts: i32, below: u32, swing: u64) -> u32
    requires { (below ≤ 10000000) × (0 < swing) × (swing ≤ 20000000) }
    ensures { AnswersCode result (span below swing) microvolts }
{
    let height = microvolts as i64 + below as i64;
    if height < 0 {
        return OUT_OF_RANGE;
    }
    let code = (height as u64 * 8192 + swing) / (2 * swing);
    if code <= 4095 {
        code as u32
    } else {
        OUT_OF_RANGE
    }
}

// Microvolts as the nearest 12-bit code of an output range, halves upward.
#[unsafe(no_mangle)]
pub extern "C" fn dmm32_output_code(microvolts: i32, range: u32) -> u32
    ensures { AnswersCode result (span_of range) microvolts }
{
    match range {
        0 => code_in(microvolts, 5000000, 10000000),
        1 => code_in(microvolts, 10000000, 20000000),
        2 => code_in(microvolts, 0, 5000000),
        3 => code_in(microvolts, 0, 10000000),
        _ => UNKNOWN,
    }
}

// The two bytes that load the nearest code on a channel: the LSB, for Base + 4, and 256 times the MSB, for Base + 5.
#[unsafe(no_mangle)]
pub extern "C" fn dmm32_output_bytes(microvolts: i32, range: u32, channel: u32) -> u32
    ensures { result ≡ as_number (bytes_of microvolts range channel) }
{
    if channel > 3 {
        return UNKNOWN;
    }
    let code = dmm32_output_code(microvolts, range);
    if code < 65536 {
        code + channel * 16384
    } else {
        code
    }
}
