// One turn of a collector on a board, by value, with what is handed over as numbers.
ghost use Rattle.std.specs.Prelude.{◌≡◌};
ghost use Rattle.archive_turns.specs.Real.{turned_in, lent_turn};
ghost use Rattle.numbers.specs.Turning.{turn_numbered};

use super::TurnNumbered;
use archive_turns::Turned;
use board::Board;
use collector::{Collector, Taken};

fn in_numbers(t: Turned) -> TurnNumbered
    ensures { result ≡ turn_numbered t }
{
    TurnNumbered {
        board: t.board,
        taken: numbers_collector::in_numbers(Taken {
            collector: t.collector,
            polls: t.polls,
            handed: t.handed,
        }),
    }
}

// The access that the collector names is made on the board, and the collector takes what comes of it.
pub fn turn(
    board: Board,
    memory: &mut [u16],
    eeprom: &mut [u8],
    collector: Collector,
) -> TurnNumbered
    ensures value { result ≡ turn_numbered (turned_in (lent_turn collector board memory.old eeprom.old)) }
    ensures memory_after { memory.new ≡ (lent_turn collector board memory.old eeprom.old).board.memory }
    ensures eeprom_after { eeprom.new ≡ (lent_turn collector board memory.old eeprom.old).board.eeprom }
{
    in_numbers(archive_turns::turn(collector, board, memory, eeprom))
}
