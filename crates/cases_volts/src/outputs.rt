// Cases of output codes.
use crate::show::{Bytes, Code};
use std::io;

fn code_case(rt: &impl Print, name: &str, microvolts: i32, range: u32) -> io::Result<()> {
    let code = codes::dmm32_output_code(microvolts, range);
    println!(rt; "{name}: {}", Code(code))
}

fn bytes_case(
    rt: &impl Print,
    name: &str,
    microvolts: i32,
    range: u32,
    channel: u32,
) -> io::Result<()> {
    let bytes = codes::dmm32_output_bytes(microvolts, range, channel);
    println!(rt; "{name}: {}", Bytes(bytes))
}

// A line for each of the microvolts, at an output range and its voltages.
fn edges(rt: &impl Print, voltages: &str, range: u32, edges: &[i32]) -> io::Result<()> {
    for &microvolts in edges {
        let code = codes::dmm32_output_code(microvolts, range);
        println!(rt; "{voltages}, {microvolts} uV: {}", Code(code))?;
    }
    Ok(())
}

// The worked examples of chapters 14.1 and 14.2, and the one after 14.6.
pub fn examples(rt: &impl Print) -> io::Result<()> {
    code_case(rt, "14.1 0-5 V, 2.168 V is 1776", 2168000, 2)?;
    code_case(rt, "14.1 +-5 V, -2.168 V is 1160", -2168000, 0)?;
    bytes_case(rt, "14.2 LSB and MSB of 1776", 2168000, 2, 0)?;
    code_case(rt, "14 +-5 V, 3.000 V is 3276.8, rounded up", 3000000, 0)?;
    bytes_case(rt, "14 3.000 V on channel 1", 3000000, 0, 1)
}

// The ends of +-5 V that the specification marks, mid-scale, and the full-scale voltage, which would need 4096.
pub fn marked(rt: &impl Print) -> io::Result<()> {
    edges(
        rt,
        "+-5 V",
        0,
        &[4998779, 4998780, -5000000, -5000001, 0, 5000000],
    )
}

// +-10 V: 1 LSB is 4882.8125 uV, so the halves beside mid-scale lie at 2441.40625 uV and the top one at 9997558.59375 uV.
pub fn bipolar_edges(rt: &impl Print) -> io::Result<()> {
    edges(
        rt,
        "+-10 V",
        1,
        &[
            -10000001, -10000000, -2442, -2441, 2441, 2442, 9997558, 9997559,
        ],
    )
}

// 0-5 V: 1 LSB is 1220.703125 uV, the top half lies at 4999389.6484375 uV. 0-10 V: 1 LSB is 2441.40625 uV, the top half lies at 9998779.296875 uV.
pub fn unipolar_edges(rt: &impl Print) -> io::Result<()> {
    edges(rt, "0-5 V", 2, &[-1, 610, 611, 4999389, 4999390])?;
    edges(rt, "0-10 V", 3, &[-1, 1220, 1221, 9998779, 9998780])
}

// Mid-scale and the top code on channels, and refusals: 19 for a channel or range, also below the range, then 18.
pub fn channels(rt: &impl Print) -> io::Result<()> {
    bytes_case(rt, "+-5 V, 0 uV on channel 2", 0, 0, 2)?;
    bytes_case(rt, "0-10 V, 9998779 uV on channel 3", 9998779, 3, 3)?;
    bytes_case(rt, "channel 4", 0, 0, 4)?;
    bytes_case(rt, "channel 4, below the range", -6000000, 0, 4)?;
    bytes_case(rt, "output range 4, below every range", -20000000, 4, 0)?;
    bytes_case(rt, "channel 0, below the range", -6000000, 0, 0)?;
    code_case(rt, "output range 4", 0, 4)?;
    code_case(rt, "the least number of microvolts", -2147483648, 1)?;
    code_case(rt, "the greatest number of microvolts", 2147483647, 3)
}
