// The board's record, with the names that others use of it: the record; its gates and a timer that moves; a tick, pins, resets; what a host has to act on.
#![tactic(auto)]

pub use machine_clock::{gates_at, gates_of, move_timer_by, put_timer};
pub use machine_due::{due, irq};
pub use machine_pins::set_din;
pub use machine_record::{
    Board, Clocks, Jumpers, Pins, Registers, Wiring, dout_pins, fresh, is_working, single_ended,
};
pub use machine_reset::{is_reset, reset_board};
pub use machine_tick::{clocks_0, clocks_1, next_tick, pulse_if};
