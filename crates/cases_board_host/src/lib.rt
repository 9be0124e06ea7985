// What a host does with a board's record besides its events, for the programs that run named cases: shows it, and spoils it.
#![tactic(auto)]

pub mod spoil;
mod spoil_counters;
mod spoil_flags;
pub mod view;
