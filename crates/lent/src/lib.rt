// The board as a hypervisor lends it: the record and both memories are the caller's, and it finds them updated. `step` calls `board::step` with the
// record by value and stores what comes back, and `advance` likewise. What is refused leaves all three as they were.
#![tactic(auto)]

ghost use Rattle.board_step.specs.Lent.{Stepped, itself};
ghost use Rattle.board_advance.specs.Lent.{Moved};

use board::{Answer, Board, Event, Progress};

// Any event.
pub fn step(board: &mut Board, memory: &mut [u16], eeprom: &mut [u8], event: Event) -> Answer
    ensures { Stepped itself board.old memory.old eeprom.old event result board.new memory.new
        eeprom.new }
{
    let out = board::step(*board, memory, eeprom, event);
    *board = out.board;
    out.answer
}

// Ticks, `ticks` at the utmost, as far as the first with which the host has something to do.
pub fn advance(board: &mut Board, memory: &mut [u16], eeprom: &mut [u8], ticks: u32) -> Progress
    ensures { Moved itself board.old memory.old eeprom.old ticks result board.new memory.new
        eeprom.new }
{
    let out = board::advance(*board, memory, eeprom, ticks);
    *board = out.board;
    out.progress
}
