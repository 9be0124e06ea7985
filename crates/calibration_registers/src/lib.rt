// Calibration (manual, 8.4 and chapter 15; page 3 of the register map): the data and address registers, the key, the transfer that runs.
// Each function's contract is a definition of specs/Registers.antt.
#![tactic(auto)]

ghost use Rattle.std.specs.Prelude.{◌≡◌, ◌≢◌, IfNone, IfSome};
ghost use Rattle.calibration_registers.specs.Registers.{calbusy, several, locked, control_refusal, nothing_runs, eeprom_command, transfer_commanded};
ghost use Rattle.calibration_registers.specs.Registers.{data_written, address_written, command_written, key_written, key_forgotten};
ghost use Rattle.calibration_registers.specs.Registers.{data_read, address_read, status_read, revision, reset_calibration, fresh_calibration};
ghost use Rattle.calibration_registers.specs.Working.{is_working_calibration};

use base::Refusal;

// Registers 12 and 13, the transfer that runs as a number, the key, CMUXEN, and the TrimDAC.
#[repr(C)]
#[derive(Clone, Copy)]
pub struct Calibration {
    pub value: u8,
    pub address: u8,
    pub transfer: u8,
    pub key: u8,
    pub cmuxen: u8,
    pub trim: [u8; 8],
}

// ---- what is busy, and what is refused

// CALBUSY: a transfer runs. Then a write of 12, 13 or 14 is refused, number 6.
pub fn is_busy(c: Calibration) -> bool
    ensures { result ≡ calbusy c }
{
    calibration_transfers::does_run(calibration_transfers::transfer_of(c.transfer))
}

// Whether a byte for 14 has more than one of EE_EN, RUNCAL, TDACEN: refused, number 9.
pub fn is_several(v: u8) -> bool
    ensures { result ≡ several v }
{
    let ee = v / 128 % 2 == 1;
    let cal = v / 32 % 2 == 1;
    let td = v / 8 % 2 == 1;
    (ee & cal) | (ee & td) | (cal & td)
}

// Whether a byte for 14 has EE_EN while the key is not there: refused, number 8.
pub fn is_locked(c: Calibration, v: u8) -> bool
    ensures { result ≡ locked c v }
{
    (v / 128 % 2 == 1) & (c.key != 1)
}

// The refusal of a write of 14, where it is refused.
pub fn control_refusal(c: Calibration, v: u8) -> Option<Refusal>
    ensures taken { IfNone result (control_refusal c v ≡ 0) }
    ensures refused { IfSome result (λ r. (r.number ≡ control_refusal c v) × (r.number ≢ 0)) }
{
    if is_busy(c) {
        Some(Refusal { number: 6 })
    } else if is_several(v) {
        Some(Refusal { number: 9 })
    } else if is_locked(c, v) {
        Some(Refusal { number: 8 })
    } else {
        None
    }
}

// Whether no transfer runs: then a transfer end is refused, number 10.
pub fn is_idle(c: Calibration) -> bool
    ensures { result ≡ nothing_runs c }
{
    !is_busy(c)
}

// ---- writes of 12 to 15

// A write of 12: the data register.
pub fn write_value(c: Calibration, v: u8) -> Calibration
    ensures { result ≡ data_written c v }
{
    Calibration { value: v, ..c }
}

// A write of 13: the address register, A6-A0.
pub fn write_address(c: Calibration, v: u8) -> Calibration
    ensures { result ≡ address_written c v }
{
    Calibration {
        address: v % 128,
        ..c
    }
}

// The EEPROM command of a byte for 14: EE_RW set is a read.
fn eeprom_command(v: u8) -> u8
    ensures { result ≡ eeprom_command v }
{
    if v / 64 % 2 == 1 { 1 } else { 2 }
}

// The number of the transfer that a byte for 14 starts.
fn command_of(v: u8) -> u8
    ensures { result ≡ transfer_commanded v }
{
    if v / 128 % 2 == 1 {
        eeprom_command(v)
    } else if v / 32 % 2 == 1 {
        3
    } else if v / 8 % 2 == 1 {
        4
    } else {
        0
    }
}

// A write of 14 that is not refused: its transfer starts, and CMUXEN takes its bit.
pub fn write_control(c: Calibration, v: u8) -> Calibration
    ensures { result ≡ command_written c v }
{
    Calibration {
        transfer: command_of(v),
        cmuxen: v / 16 % 2,
        ..c
    }
}

// A write of 15: A5 is the key, and another byte forgets it.
pub fn write_key(c: Calibration, v: u8) -> Calibration
    ensures { result ≡ key_written c v }
{
    Calibration {
        key: (v == 0xA5) as u8,
        ..c
    }
}

// The key is forgotten, as by a write of the page.
pub fn forget_key(c: Calibration) -> Calibration
    ensures { result ≡ key_forgotten c }
{
    Calibration { key: 0, ..c }
}

// ---- reads of 12 to 15

// A read of 12.
pub fn read_value(c: Calibration) -> u8
    ensures { result ≡ data_read c }
{
    c.value
}

// A read of 13.
pub fn read_address(c: Calibration) -> u8
    ensures { result ≡ address_read c }
{
    c.address
}

// A read of 14: TDBUSY, EEBUSY, CMUXEN, TDACEN.
pub fn read_status(c: Calibration) -> u8
    ensures { result ≡ status_read c }
{
    let t = calibration_transfers::transfer_of(c.transfer);
    let td = calibration_transfers::uses_trimdac(t);
    let ee = calibration_transfers::uses_eeprom(t);
    base::weight(td, 64)
        + base::weight(ee, 32)
        + base::weight(c.cmuxen == 1, 16)
        + base::weight(td, 8)
}

// A read of 15: the revision code of the FPGA.
pub fn read_revision() -> u8
    ensures { result ≡ revision }
{
    34
}

// ---- reset, and a fresh board's calibration

// Registers and key are 0, a transfer is abandoned; TrimDAC and EEPROM remain.
pub fn reset(c: Calibration) -> Calibration
    ensures { result ≡ reset_calibration c }
{
    let trim = c.trim;
    Calibration { trim, ..fresh() }
}

// A fresh board's calibration.
pub fn fresh() -> Calibration
    ensures { result ≡ fresh_calibration }
{
    Calibration {
        value: 0,
        address: 0,
        transfer: 0,
        key: 0,
        cmuxen: 0,
        trim: [0; 8],
    }
}

// Whether this is a working board's calibration.
pub fn is_working(c: Calibration) -> bool
    ensures { result ≡ is_working_calibration c }
{
    (c.address <= 127) & (c.transfer <= 4) & (c.key <= 1) & (c.cmuxen <= 1)
}
