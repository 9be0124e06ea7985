// Runs the named cases of standard input over the compiled board: each line is a name and operations on a fresh board, jumpers A,
// mid-scale, with fresh stores. The operations are in operations.rt, the line language in the crate cases.
#![tactic(auto)]

mod bench;
mod operations;

use bench::BoardBench;
use board::Jumpers;
use std::io;

fn main(rt: HostRuntime) -> io::Result<()> {
    cases::run(&rt, &mut BoardBench::fresh(Jumpers::A, false))
}
