// What hosts link that let a collector of theirs drive the board (include/cowriestep.h): one turn of it over a lent board. It stands in a library of its
// own: in that of cowriestep each event's function is the only one that calls the step of its kind, which the compiler puts into it whole.
#![tactic(auto)]

ghost use Rattle.archive_turns.specs.Lent.{Driven};
ghost use Rattle.numbers_collector.specs.Collecting.{taken_answer};

use board::Board;
use collector::Collector;
use numbers_collector::TakenAnswer;

// One turn of a collector: the access that it names is made on the board, and it takes what comes of it.
#[unsafe(no_mangle)]
pub extern "C" fn dmm32_turn(
    board: &mut Board,
    memory: &mut [u16],
    eeprom: &mut [u8],
    collector: Collector,
) -> TakenAnswer
    ensures { Driven taken_answer board.old memory.old eeprom.old collector result board.new memory.new
        eeprom.new }
{
    let out = numbers::turning::turn(*board, memory, eeprom, collector);
    *board = out.board;
    out.taken
}
