// Many ticks in one call, by value, with their answer as a number.
ghost use Rattle.std.specs.Prelude.{◌≡◌};
ghost use Rattle.board_advance.specs.Advance.{advanced_of};
ghost use Rattle.numbers.specs.Outcomes.{advanced_numbered};

use super::{AdvancedNumbered, ProgressNumbered};
use board::{Advanced, Board};

// What `advance` answers, with the answer as a number.
fn in_numbers(out: Advanced) -> AdvancedNumbered
    ensures { result ≡ advanced_numbered out }
{
    AdvancedNumbered {
        board: out.board,
        progress: ProgressNumbered {
            answer: numbers_answers::number_of(out.progress.answer),
            done: out.progress.done,
        },
    }
}

// Ticks, `ticks` at the utmost, as far as the first with which the host has something to do.
pub fn advance(board: Board, memory: &mut [u16], eeprom: &mut [u8], ticks: u32) -> AdvancedNumbered
    ensures value { result ≡ advanced_numbered (advanced_of board memory.old eeprom.old ticks) }
    ensures memory_unchanged { memory.new ≡ memory.old }
    ensures eeprom_unchanged { eeprom.new ≡ eeprom.old }
{
    in_numbers(board::advance(board, memory, eeprom, ticks))
}
