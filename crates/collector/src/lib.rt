// The collector (the specification, "The collector" and refusals 1, 11 to 15, 17 and 20): it stops, sets and starts the board, empties its sample
// memory and hands the samples over. Its record names one bus access; the host makes that access and brings the answer back. The functions
// stand in the crates below by what they do; here are the theorems about them.
#![tactic(auto)]

pub use base::Refusal;
pub use collector_answers::BusAnswer;
pub use collector_phases::{Access, Collector, access_of, is_fit};
pub use collector_records::start;
pub use collector_replies::take_answer;
pub use collector_settings::Settings;
pub use collector_steps::{Handed, Taken};
pub use samples::Sample;
