// Runs named cases over the compiled volts and output codes: the worked examples and tables of the manual's chapters 9, 13 and 14, and the edges of
// every range. Each line is a name and what came out; the file stdout has what the papers say.
#![tactic(auto)]

mod inputs;
mod outputs;
mod show;

use std::io;

fn main(rt: HostRuntime) -> io::Result<()> {
    inputs::examples(&rt)?;
    inputs::bipolar_ranges(&rt)?;
    inputs::unipolar_ranges(&rt)?;
    inputs::refusals(&rt)?;
    outputs::examples(&rt)?;
    outputs::marked(&rt)?;
    outputs::bipolar_edges(&rt)?;
    outputs::unipolar_edges(&rt)?;
    outputs::channels(&rt)
}
