// Runs the named cases of standard input over the compiled timer: each line is a name and operations on three counters that start
// unprogrammed, with every gate high. The operations are in operations.rt, the line language in the crate cases.
#![tactic(auto)]

mod operations;

use operations::TimerBench;
use std::io;

fn main(rt: HostRuntime) -> io::Result<()> {
    cases::run(&rt, &mut TimerBench::fresh())
}
