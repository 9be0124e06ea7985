// What the programs that run named cases share: their line language in script.rt, its run over standard input in runner.rt, and in panel.rt jumpers
// and ports by number.
#![tactic(auto)]

pub mod panel;
pub mod runner;
pub mod script;

pub use panel::{jumpers_of, port_of};
pub use runner::{Bench, each_byte, run};
pub use script::{Operation, Script, Step, begin, take_byte};
