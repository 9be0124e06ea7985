// The transfers to and from EEPROM and TrimDAC (manual, 8.4 and chapter 15): which runs, and what is busy meanwhile. Each function's
// contract is a definition of specs/Transfers.antt.
#![tactic(auto)]

ghost use Rattle.std.specs.Prelude.{◌≡◌};
ghost use Rattle.calibration_transfers.specs.Transfers.{transfer_of, runs, eeprom_busy, trim_dac_busy};

// What a command of register 14 starts.
#[derive(Clone, Copy)]
pub enum Transfer {
    EepromRead,
    EepromWrite,
    RunCal,
    TrimDac,
}

// The transfer that a number stands for, where it stands for one.
pub fn transfer_of(n: u8) -> Option<Transfer>
    ensures { result ≡ transfer_of n }
{
    match n {
        1 => Some(Transfer::EepromRead),
        2 => Some(Transfer::EepromWrite),
        3 => Some(Transfer::RunCal),
        4 => Some(Transfer::TrimDac),
        _ => None,
    }
}

// Whether a transfer runs.
pub fn does_run(t: Option<Transfer>) -> bool
    ensures { result ≡ runs t }
{
    t.is_some()
}

// Whether EEBUSY reads 1 meanwhile.
pub fn uses_eeprom(t: Option<Transfer>) -> bool
    ensures { result ≡ eeprom_busy t }
{
    matches!(
        t,
        Some(Transfer::EepromRead | Transfer::EepromWrite | Transfer::RunCal)
    )
}

// Whether TDBUSY reads 1 meanwhile.
pub fn uses_trimdac(t: Option<Transfer>) -> bool
    ensures { result ≡ trim_dac_busy t }
{
    matches!(t, Some(Transfer::TrimDac))
}
