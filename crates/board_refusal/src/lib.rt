// The working board: specs/Working.antt. Which events are refused, and by which number, is defined in specs/Refusals.antt.
#![tactic(auto)]

ghost use Rattle.std.specs.Prelude.{◌≡◌};
ghost use Rattle.base.specs.Checks.{checked};
ghost use Rattle.board_refusal.specs.Working.{is_working_board};
ghost use Rattle.board_refusal.specs.Refusals.{first_checks};

use base::Refusal;
use machine::Board;

// Whether the record and the sample memory are a working board's.
#[tactic(auto, unfolding(crate::specs::Working::is_working_board))]
pub fn is_working(board: Board, memory: &[u16]) -> bool
    ensures { result ≡ is_working_board board memory.now }
{
    if machine::is_working(board) {
        fifo::is_working(board.fifo, memory)
    } else {
        false
    }
}

// What every event is refused by before its own checks: 2, memories of other lengths; 1, what is no working board's.
#[inline(always)]
pub fn check(board: Board, memory: &[u16], eeprom: &[u8]) -> Result<(), Refusal>
    ensures { result ≡ checked (first_checks board memory.now eeprom.now) }
{
    if (memory.len() != 512) | (eeprom.len() != 128) {
        return Err(Refusal { number: 2 });
    }
    if !is_working(board, memory) {
        return Err(Refusal { number: 1 });
    }
    Ok(())
}
