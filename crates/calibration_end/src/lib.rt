// What a transfer to or from EEPROM and TrimDAC has done when it ends (manual, chapter 15). The EEPROM, 128 bytes, is lent. Each
// function's contract is a definition of specs/Ends.antt.
#![tactic(auto)]

ghost use Rattle.std.specs.Prelude.{◌≡◌, length, set, take, ◌%◌};
ghost use Rattle.calibration_registers.specs.Working.{WorkingCalibration};
ghost use Rattle.calibration_end.specs.Ends.{stopped, ended_by, eeprom_ended_by, calibration_ended, eeprom_ended};

use calibration_registers::Calibration;
use calibration_transfers::Transfer;
use std::array;

// No transfer runs any more; register 12 and the TrimDAC are as given.
fn stop(c: Calibration, value: u8, trim: [u8; 8]) -> Calibration
    ensures { result ≡ stopped c value trim }
{
    Calibration {
        value,
        transfer: 0,
        trim,
        ..c
    }
}

// The TrimDAC's value at the address's three low bits is register 12.
fn trimmed(mut trim: [u8; 8], address: u8, value: u8) -> [u8; 8]
    ensures { result ≡ set trim (address % 8) value }
{
    trim[(address % 8) as usize] = value;
    trim
}

// The first eight bytes of the EEPROM.
fn first_eight(eeprom: &[u8]) -> [u8; 8]
    requires { length eeprom.now ≡ 128 }
    ensures { result ≡ take 8 eeprom.now }
{
    array::from_fn(|i| eeprom[i])
}

// The calibration after a transfer's end.
fn end_by(t: Option<Transfer>, c: Calibration, eeprom: &[u8]) -> Calibration
    requires { (length eeprom.now ≡ 128) × WorkingCalibration c }
    ensures { result ≡ ended_by t c eeprom.now }
{
    match t {
        None => c,
        Some(Transfer::EepromRead) => stop(c, eeprom[c.address as usize], c.trim),
        Some(Transfer::EepromWrite) => stop(c, c.value, c.trim),
        Some(Transfer::RunCal) => stop(c, c.value, first_eight(eeprom)),
        Some(Transfer::TrimDac) => stop(c, c.value, trimmed(c.trim, c.address, c.value)),
    }
}

// The EEPROM after a transfer's end.
fn store_by(t: Option<Transfer>, c: Calibration, eeprom: &mut [u8])
    requires { (length eeprom.old ≡ 128) × WorkingCalibration c }
    ensures { eeprom.new ≡ eeprom_ended_by t c eeprom.old }
{
    if let Some(Transfer::EepromWrite) = t {
        eeprom[c.address as usize] = c.value;
    }
}

// The transfer that runs ends: it does its work, and none runs any more.
pub fn end_transfer(c: Calibration, eeprom: &mut [u8]) -> Calibration
    requires { (length eeprom.old ≡ 128) × WorkingCalibration c }
    ensures value { result ≡ calibration_ended c eeprom.old }
    ensures eeprom_after { eeprom.new ≡ eeprom_ended c eeprom.old }
{
    let t = calibration_transfers::transfer_of(c.transfer);
    let d = end_by(t, c, eeprom);
    store_by(t, c, eeprom);
    d
}
