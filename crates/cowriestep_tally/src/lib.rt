// What hosts link that let events happen as records of numbers, or keep a tally of samples and conversions (include/cowriestep.h): one event of any kind over a
// lent board, and the tally by value. It stands in a library of its own: in that of cowriestep each event's function is the only one that calls the step of
// its kind, which the compiler puts into it whole.
#![tactic(auto)]

ghost use Rattle.std.specs.Prelude.{◌≡◌};
ghost use Rattle.board_step.specs.Lent.{Stepped};
ghost use Rattle.numbers_answers.specs.Packed.{answer_number};
ghost use Rattle.numbers_events.specs.Events.{event_of};
ghost use Rattle.tally.specs.Tally.{noted, noted_ticks, adds_up};

use board::Board;
use numbers_events::EventNumbers;
use tally::Tally;

// One event of any kind.
#[unsafe(no_mangle)]
pub extern "C" fn dmm32_step(
    board: &mut Board,
    memory: &mut [u16],
    eeprom: &mut [u8],
    event: EventNumbers,
) -> u32
    ensures { Stepped answer_number board.old memory.old eeprom.old (event_of event) result board.new
        memory.new eeprom.new }
{
    let out = numbers_events::step(*board, memory, eeprom, event);
    *board = out.board;
    out.number
}

// The tally with an event that is about to happen; with memories of the wrong lengths it is at once the tally as it was.
#[unsafe(no_mangle)]
pub extern "C" fn dmm32_note(
    tally: Tally,
    board: Board,
    memory: &[u16],
    eeprom: &[u8],
    event: EventNumbers,
) -> Tally
    ensures { result ≡ noted tally board memory.now eeprom.now (event_of event) }
{
    if (memory.len() != 512) | (eeprom.len() != 128) {
        return tally;
    }
    let happening = numbers_events::event_of(event);
    tally::note(tally, board, memory, eeprom, happening)
}

// The tally with the ticks that dmm32_advance is about to do.
#[unsafe(no_mangle)]
pub extern "C" fn dmm32_note_ticks(
    tally: Tally,
    board: Board,
    memory: &[u16],
    eeprom: &[u8],
    ticks: u32,
) -> Tally
    ensures { result ≡ noted_ticks tally board memory.now eeprom.now ticks }
{
    tally::note_ticks(tally, board, memory, eeprom, ticks)
}

// Whether both sums hold, of a tally that began as zeros with the board `first` and stands with the board `last`.
#[unsafe(no_mangle)]
pub extern "C" fn dmm32_tally_adds_up(tally: Tally, first: Board, last: Board) -> bool
    ensures { result ≡ adds_up tally first last }
{
    tally::sums::adds_up(tally, first, last)
}
