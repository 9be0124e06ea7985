// What C and Rust hosts link (include/cowriestep.h): the lent board, fresh boards, the collector and the formulas, on plain numbers and records of
// numbers. Here are the events: each answers memories of the wrong lengths at once (refusal 2), or calls the function of its kind with the record by
// value and stores what comes back; `dmm32_advance` calls that of many ticks.
#![tactic(auto)]

ghost use Rattle.board_step.specs.Lent.{Stepped};
ghost use Rattle.board_advance.specs.Lent.{Moved};
ghost use Rattle.numbers_answers.specs.Packed.{answer_number};
ghost use Rattle.numbers.specs.Outcomes.{progress_numbered};

use board::{Board, Event, Port};
use numbers::ProgressNumbered;

pub mod others; // fresh boards, the collector and whole scans
pub mod formulas; // codes as volts, volts as output codes

// The guest writes a byte at an offset.
#[unsafe(no_mangle)]
pub extern "C" fn dmm32_write_byte(
    board: &mut Board,
    memory: &mut [u16],
    eeprom: &mut [u8],
    offset: u32,
    value: u8,
) -> u32
    ensures { Stepped answer_number board.old memory.old eeprom.old (Event.WriteByte offset value) result board.new
        memory.new eeprom.new }
{
    if (memory.len() != 512) | (eeprom.len() != 128) {
        return 0x62000000;
    }
    let out = numbers::stepping::write_byte(*board, memory, eeprom, offset, value);
    *board = out.board;
    out.number
}

// The guest reads a byte at an offset.
#[unsafe(no_mangle)]
pub extern "C" fn dmm32_read_byte(
    board: &mut Board,
    memory: &mut [u16],
    eeprom: &mut [u8],
    offset: u32,
) -> u32
    ensures { Stepped answer_number board.old memory.old eeprom.old (Event.ReadByte offset) result board.new
        memory.new eeprom.new }
{
    if (memory.len() != 512) | (eeprom.len() != 128) {
        return 0x62000000;
    }
    let out = numbers::stepping::read_byte(*board, memory, eeprom, offset);
    *board = out.board;
    out.number
}

// The guest reads a word at an offset.
#[unsafe(no_mangle)]
pub extern "C" fn dmm32_read_word(
    board: &mut Board,
    memory: &mut [u16],
    eeprom: &mut [u8],
    offset: u32,
) -> u32
    ensures { Stepped answer_number board.old memory.old eeprom.old (Event.ReadWord offset) result board.new
        memory.new eeprom.new }
{
    if (memory.len() != 512) | (eeprom.len() != 128) {
        return 0x62000000;
    }
    let out = numbers::stepping::read_word(*board, memory, eeprom, offset);
    board.fifo = out.fifo;
    out.number
}

// The conversion in progress ends with a signed code.
#[unsafe(no_mangle)]
pub extern "C" fn dmm32_conversion_end(
    board: &mut Board,
    memory: &mut [u16],
    eeprom: &mut [u8],
    code: i16,
) -> u32
    ensures { Stepped answer_number board.old memory.old eeprom.old (Event.ConversionEnd code) result board.new
        memory.new eeprom.new }
{
    if (memory.len() != 512) | (eeprom.len() != 128) {
        return 0x62000000;
    }
    let out = numbers::stepping::conversion_end(*board, memory, eeprom, code);
    *board = out.board;
    out.number
}

// DIN3-0 take new levels.
#[unsafe(no_mangle)]
pub extern "C" fn dmm32_din(
    board: &mut Board,
    memory: &mut [u16],
    eeprom: &mut [u8],
    lines: u32,
) -> u32
    ensures { Stepped answer_number board.old memory.old eeprom.old (Event.DinPins (record { lines = lines })) result
        board.new memory.new eeprom.new }
{
    if (memory.len() != 512) | (eeprom.len() != 128) {
        return 0x62000000;
    }
    let out = numbers::stepping::din_pins(*board, memory, eeprom, lines);
    *board = out.board;
    out.number
}

// The Latch pin takes a level: 0 is low, any other number high.
#[unsafe(no_mangle)]
pub extern "C" fn dmm32_latch(
    board: &mut Board,
    memory: &mut [u16],
    eeprom: &mut [u8],
    level: u32,
) -> u32
    ensures { Stepped answer_number board.old memory.old eeprom.old (Event.LatchLevel level) result board.new
        memory.new eeprom.new }
{
    if (memory.len() != 512) | (eeprom.len() != 128) {
        return 0x62000000;
    }
    let out = numbers::stepping::latch_level(*board, memory, eeprom, level);
    *board = out.board;
    out.number
}

// The pins of port A take new levels.
#[unsafe(no_mangle)]
pub extern "C" fn dmm32_port_a_pins(
    board: &mut Board,
    memory: &mut [u16],
    eeprom: &mut [u8],
    pins: u8,
) -> u32
    ensures { Stepped answer_number board.old memory.old eeprom.old (Event.PortPins Port.PortA pins) result
        board.new memory.new eeprom.new }
{
    if (memory.len() != 512) | (eeprom.len() != 128) {
        return 0x62000000;
    }
    let out = numbers::stepping::port_pins(*board, memory, eeprom, Port::PortA, pins);
    *board = out.board;
    out.number
}

// The pins of port B take new levels.
#[unsafe(no_mangle)]
pub extern "C" fn dmm32_port_b_pins(
    board: &mut Board,
    memory: &mut [u16],
    eeprom: &mut [u8],
    pins: u8,
) -> u32
    ensures { Stepped answer_number board.old memory.old eeprom.old (Event.PortPins Port.PortB pins) result
        board.new memory.new eeprom.new }
{
    if (memory.len() != 512) | (eeprom.len() != 128) {
        return 0x62000000;
    }
    let out = numbers::stepping::port_pins(*board, memory, eeprom, Port::PortB, pins);
    *board = out.board;
    out.number
}

// The pins of port C take new levels.
#[unsafe(no_mangle)]
pub extern "C" fn dmm32_port_c_pins(
    board: &mut Board,
    memory: &mut [u16],
    eeprom: &mut [u8],
    pins: u8,
) -> u32
    ensures { Stepped answer_number board.old memory.old eeprom.old (Event.PortPins Port.PortC pins) result
        board.new memory.new eeprom.new }
{
    if (memory.len() != 512) | (eeprom.len() != 128) {
        return 0x62000000;
    }
    let out = numbers::stepping::port_pins(*board, memory, eeprom, Port::PortC, pins);
    *board = out.board;
    out.number
}

// One tick of the 10 MHz clock.
#[unsafe(no_mangle)]
pub extern "C" fn dmm32_tick(board: &mut Board, memory: &mut [u16], eeprom: &mut [u8]) -> u32
    ensures { Stepped answer_number board.old memory.old eeprom.old Event.Tick result board.new memory.new
        eeprom.new }
{
    if (memory.len() != 512) | (eeprom.len() != 128) {
        return 0x62000000;
    }
    let out = numbers::stepping::tick(*board, memory, eeprom);
    *board = out.board;
    out.number
}

// Ticks of the 10 MHz clock, `ticks` at the utmost, as far as the first with which the host has something to do.
#[unsafe(no_mangle)]
pub extern "C" fn dmm32_advance(
    board: &mut Board,
    memory: &mut [u16],
    eeprom: &mut [u8],
    ticks: u32,
) -> ProgressNumbered
    ensures { Moved progress_numbered board.old memory.old eeprom.old ticks result board.new memory.new
        eeprom.new }
{
    let out = numbers::time::advance(*board, memory, eeprom, ticks);
    *board = out.board;
    out.progress
}

// The calibration transfer that runs ends.
#[unsafe(no_mangle)]
pub extern "C" fn dmm32_transfer_end(
    board: &mut Board,
    memory: &mut [u16],
    eeprom: &mut [u8],
) -> u32
    ensures { Stepped answer_number board.old memory.old eeprom.old Event.TransferEnd result board.new
        memory.new eeprom.new }
{
    if (memory.len() != 512) | (eeprom.len() != 128) {
        return 0x62000000;
    }
    let out = numbers::stepping::transfer_end(*board, memory, eeprom);
    *board = out.board;
    out.number
}
