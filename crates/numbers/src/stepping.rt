// One event of each kind, by value, with its answer as a number: what the exported functions over a lent board call.
ghost use Rattle.std.specs.Prelude.{◌≡◌};
ghost use Rattle.board_step.specs.Step.{step_of, memory_after, eeprom_after};
ghost use Rattle.numbers.specs.Outcomes.{numbered_of, word_numbered};
ghost use Rattle.board_events.specs.declared.Event.TheVariants.{WriteByte, ReadByte, ReadWord, ConversionEnd, DinPins, LatchLevel, PortPins, Tick};
ghost use Rattle.board_events.specs.declared.Event.TheVariants.{TransferEnd};

use super::{Numbered, WordNumbered};
use board::{Board, Port};

// The guest writes a byte at an offset.
pub fn write_byte(
    board: Board,
    memory: &mut [u16],
    eeprom: &mut [u8],
    offset: u32,
    value: u8,
) -> Numbered
    ensures value { result ≡ numbered_of (step_of board memory.old eeprom.old (WriteByte offset value)) }
    ensures memory_after { memory.new ≡ memory_after board memory.old eeprom.old (WriteByte offset value) }
    ensures eeprom_after { eeprom.new ≡ eeprom_after board memory.old eeprom.old (WriteByte offset value) }
{
    super::in_numbers(board::write_byte(board, memory, eeprom, offset, value))
}

// The guest reads a byte at an offset.
pub fn read_byte(board: Board, memory: &mut [u16], eeprom: &mut [u8], offset: u32) -> Numbered
    ensures value { result ≡ numbered_of (step_of board memory.old eeprom.old (ReadByte offset)) }
    ensures memory_after { memory.new ≡ memory_after board memory.old eeprom.old (ReadByte offset) }
    ensures eeprom_after { eeprom.new ≡ eeprom_after board memory.old eeprom.old (ReadByte offset) }
{
    super::in_numbers(board::read_byte(board, memory, eeprom, offset))
}

// The guest reads a word at an offset. Of the record comes back the one part that can change.
pub fn read_word(board: Board, memory: &mut [u16], eeprom: &mut [u8], offset: u32) -> WordNumbered
    ensures value { result ≡ word_numbered (step_of board memory.old eeprom.old (ReadWord offset)) }
    ensures memory_after { memory.new ≡ memory_after board memory.old eeprom.old (ReadWord offset) }
    ensures eeprom_after { eeprom.new ≡ eeprom_after board memory.old eeprom.old (ReadWord offset) }
{
    super::word_in_numbers(board::read_word(board, memory, eeprom, offset))
}

// The conversion in progress ends with a signed code.
pub fn conversion_end(board: Board, memory: &mut [u16], eeprom: &mut [u8], code: i16) -> Numbered
    ensures value { result ≡ numbered_of (step_of board memory.old eeprom.old (ConversionEnd code)) }
    ensures memory_after { memory.new ≡ memory_after board memory.old eeprom.old (ConversionEnd code) }
    ensures eeprom_after { eeprom.new ≡ eeprom_after board memory.old eeprom.old (ConversionEnd code) }
{
    super::in_numbers(board::conversion_end(board, memory, eeprom, code))
}

// DIN3-0 take new levels.
pub fn din_pins(board: Board, memory: &mut [u16], eeprom: &mut [u8], lines: u32) -> Numbered
    ensures value { result ≡ numbered_of (step_of board memory.old eeprom.old (DinPins (record { lines = lines }))) }
    ensures memory_after { memory.new ≡ memory_after board memory.old eeprom.old (DinPins (record { lines = lines })) }
    ensures eeprom_after { eeprom.new ≡ eeprom_after board memory.old eeprom.old (DinPins (record { lines = lines })) }
{
    super::in_numbers(board::din_pins(board, memory, eeprom, lines))
}

// The Latch pin takes a level: 0 is low, any other number high.
pub fn latch_level(board: Board, memory: &mut [u16], eeprom: &mut [u8], level: u32) -> Numbered
    ensures value { result ≡ numbered_of (step_of board memory.old eeprom.old (LatchLevel level)) }
    ensures memory_after { memory.new ≡ memory_after board memory.old eeprom.old (LatchLevel level) }
    ensures eeprom_after { eeprom.new ≡ eeprom_after board memory.old eeprom.old (LatchLevel level) }
{
    super::in_numbers(board::latch_level(board, memory, eeprom, level))
}

// The pins of a port take new levels.
pub fn port_pins(
    board: Board,
    memory: &mut [u16],
    eeprom: &mut [u8],
    port: Port,
    pins: u8,
) -> Numbered
    ensures value { result ≡ numbered_of (step_of board memory.old eeprom.old (PortPins port pins)) }
    ensures memory_after { memory.new ≡ memory_after board memory.old eeprom.old (PortPins port pins) }
    ensures eeprom_after { eeprom.new ≡ eeprom_after board memory.old eeprom.old (PortPins port pins) }
{
    super::in_numbers(board::port_pins(board, memory, eeprom, port, pins))
}

// One tick of the 10 MHz clock.
pub fn tick(board: Board, memory: &mut [u16], eeprom: &mut [u8]) -> Numbered
    ensures value { result ≡ numbered_of (step_of board memory.old eeprom.old Tick) }
    ensures memory_after { memory.new ≡ memory_after board memory.old eeprom.old Tick }
    ensures eeprom_after { eeprom.new ≡ eeprom_after board memory.old eeprom.old Tick }
{
    super::in_numbers(board::tick(board, memory, eeprom))
}

// The calibration transfer that runs ends.
pub fn transfer_end(board: Board, memory: &mut [u16], eeprom: &mut [u8]) -> Numbered
    ensures value { result ≡ numbered_of (step_of board memory.old eeprom.old TransferEnd) }
    ensures memory_after { memory.new ≡ memory_after board memory.old eeprom.old TransferEnd }
    ensures eeprom_after { eeprom.new ≡ eeprom_after board memory.old eeprom.old TransferEnd }
{
    super::in_numbers(board::transfer_end(board, memory, eeprom))
}
