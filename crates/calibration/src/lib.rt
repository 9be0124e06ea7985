// EEPROM and TrimDAC (manual, chapter 8.4), with the names that others use of them: kinds of transfer, registers and key, what a transfer does when it ends.
#![tactic(auto)]

pub use calibration_end::end_transfer;
pub use calibration_registers::{
    Calibration, control_refusal, forget_key, fresh, is_busy, is_idle, is_working, read_address,
    read_revision, read_status, read_value, reset, write_address, write_control, write_key,
    write_value,
};
