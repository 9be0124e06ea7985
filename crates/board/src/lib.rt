// The board: one record by value, two lent memories, one event at a time. `step` answers every event, from whatever record, memories and
// numbers come in; each kind of event has a step of its own; `advance` makes many ticks in one call.
#![tactic(auto)]

ghost use Rattle.std.specs.Prelude.{◌≡◌};
ghost use Rattle.machine_record.specs.Fresh.{fresh_board};
ghost use Rattle.board_step.specs.Step.{step_of, memory_after, eeprom_after};

pub use board_advance::{Advanced, Progress, advance, ticks_until};
pub use board_events::{Answer, Din, Event, Port};
pub use board_reads::{read_byte, read_word};
pub use board_refusal::is_working;
pub use board_signals::{conversion_end, din_pins, latch_level, port_pins, tick, transfer_end};
pub use board_step::Outcome;
pub use board_stores::fresh_stores;
pub use board_writes::write_byte;
pub use machine::{Board, Jumpers};

// A fresh board.
pub fn fresh(jumpers: Jumpers, zero_scale: bool) -> Board
    ensures { result ≡ fresh_board jumpers zero_scale }
{
    machine::fresh(jumpers, zero_scale)
}

// One event. The answer, the record and both memories are the specification's for every input; what is refused changes nothing.
pub fn step(board: Board, memory: &mut [u16], eeprom: &mut [u8], event: Event) -> Outcome
    ensures value { result ≡ step_of board memory.old eeprom.old event }
    ensures memory_after { memory.new ≡ memory_after board memory.old eeprom.old event }
    ensures eeprom_after { eeprom.new ≡ eeprom_after board memory.old eeprom.old event }
{
    match event {
        Event::WriteByte { offset, value } => board_writes::write_byte(
            board, memory, eeprom, offset, value,
        ),
        Event::ReadByte { offset } => board_reads::read_byte(board, memory, eeprom, offset),
        Event::ReadWord { offset } => board_reads::read_word(board, memory, eeprom, offset),
        Event::ConversionEnd { code } => board_signals::conversion_end(board, memory, eeprom, code),
        Event::DinPins(d) => board_signals::din_pins(board, memory, eeprom, d.lines),
        Event::LatchLevel { level } => board_signals::latch_level(board, memory, eeprom, level),
        Event::PortPins(port, pins) => board_signals::port_pins(board, memory, eeprom, port, pins),
        Event::Tick => board_signals::tick(board, memory, eeprom),
        Event::TransferEnd => board_signals::transfer_end(board, memory, eeprom),
    }
}
