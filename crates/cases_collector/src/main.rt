// Runs the named cases of standard input over the compiled collector: each line is a name and operations on settings and a record. The
// operations are in operations.rt, what they show in shows.rt, the line language in the crate cases.
#![tactic(auto)]

mod operations;
mod shows;

use operations::CollectorBench;
use std::io;

fn main(rt: HostRuntime) -> io::Result<()> {
    cases::run(&rt, &mut CollectorBench::fresh())
}
