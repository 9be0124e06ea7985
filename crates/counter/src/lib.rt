// One counter of the 82C54, with the names that others use of it: control words and modes, counts by bytes, the counting element, the counter.
#![tactic(auto)]

pub use counter_bytes::Bus;
pub use counter_element::Count;
pub use counter_modes::control::refuses_word;
pub use counter_one::counts::{refuses_byte, write_byte};
pub use counter_one::{
    Counter, control_works, flags_work, move_gate, new, pulse, pulse_working, read, write_word,
};
