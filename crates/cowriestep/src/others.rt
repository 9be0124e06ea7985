// Fresh boards, the collector and whole scans, by value: each passes on what the crates below answer.
ghost use Rattle.std.specs.Prelude.{◌≡◌, length};
ghost use Rattle.requests.specs.Requests.{asking};
ghost use Rattle.machine_due.specs.Due.{due_of};
ghost use Rattle.board_stores.specs.Stores.{fresh_memory, fresh_eeprom, stores_answer};
ghost use Rattle.board_refusal.specs.Working.{is_working_board};
ghost use Rattle.board_advance.specs.Advance.{advanced_of};
ghost use Rattle.collector_records.specs.Records.{start_of};
ghost use Rattle.collector_phases.specs.Accesses.{access_of};
ghost use Rattle.collector_replies.specs.Reply.{replied};
ghost use Rattle.collector_phases.specs.Fit.{fit};
ghost use Rattle.samples.specs.Scans.{whole_scans};
ghost use Rattle.numbers_answers.specs.Packed.{answer_number};
ghost use Rattle.numbers.specs.Boards.{fresh_of};
ghost use Rattle.numbers_collector.specs.Collecting.{start_answer, access_named, bus_answer, taken_answer};

use board::Board;
use collector::{Collector, Settings};
use numbers_collector::{AccessNamed, BusNumbers, StartAnswer, TakenAnswer};

// A fresh board's record, for jumpers 0 to 3; any other number makes a record that is no working board's. Zero scale: 0 is no.
#[unsafe(no_mangle)]
pub extern "C" fn dmm32_fresh(jumpers: u32, zero_scale: u32) -> Board
    ensures { result ≡ fresh_of jumpers zero_scale }
{
    numbers::fresh(jumpers, zero_scale)
}

// Both memories are zeroed; wrong lengths are refused by 2, and nothing changes.
#[unsafe(no_mangle)]
pub extern "C" fn dmm32_fresh_stores(memory: &mut [u16], eeprom: &mut [u8]) -> u32
    ensures value { result ≡ answer_number (stores_answer memory.old eeprom.old) }
    ensures memory_after { memory.new ≡ fresh_memory memory.old eeprom.old }
    ensures eeprom_after { eeprom.new ≡ fresh_eeprom memory.old eeprom.old }
{
    numbers::fresh_stores(memory, eeprom)
}

// Whether the record and the sample memory are a working board's.
#[unsafe(no_mangle)]
pub extern "C" fn dmm32_is_working(board: Board, memory: &[u16]) -> bool
    ensures { result ≡ is_working_board board memory.now }
{
    board::is_working(board, memory)
}

// After how many ticks, `most` at the utmost, the next one comes with which the host has something to do: what dmm32_advance would have done.
#[unsafe(no_mangle)]
pub extern "C" fn dmm32_ticks_until(board: Board, memory: &[u16], eeprom: &[u8], most: u32) -> u32
    ensures { result ≡ (advanced_of board memory.now eeprom.now most).progress.done }
{
    board::ticks_until(board, memory, eeprom, most)
}

// The interrupt line: whether one of the three request flags is set.
#[unsafe(no_mangle)]
pub extern "C" fn dmm32_irq(board: Board) -> bool
    ensures { result ≡ asking board.requests.flags }
{
    machine::irq(board)
}

// What the host has to act on, of a board before and after what happened to it, as bits of one number.
#[unsafe(no_mangle)]
pub extern "C" fn dmm32_due(before: Board, after: Board) -> u32
    ensures { result ≡ due_of before after }
{
    machine::due(before, after)
}

// A collector for these settings, or the refusal 14, 11, 12 or 13.
#[unsafe(no_mangle)]
pub extern "C" fn dmm32_collector_start(settings: Settings) -> StartAnswer
    ensures { result ≡ start_answer (start_of settings) }
{
    numbers_collector::start(settings)
}

// Whether the record is fit.
#[unsafe(no_mangle)]
pub extern "C" fn dmm32_collector_is_fit(c: Collector) -> bool
    ensures { result ≡ fit c }
{
    collector::is_fit(c)
}

// The access that the collector makes now, or the refusal 1 or 15.
#[unsafe(no_mangle)]
pub extern "C" fn dmm32_collector_access(c: Collector) -> AccessNamed
    ensures { result ≡ access_named (access_of c) }
{
    numbers_collector::access(c)
}

// Takes what came of that access.
#[unsafe(no_mangle)]
pub extern "C" fn dmm32_collector_take(c: Collector, brought: BusNumbers) -> TakenAnswer
    ensures { result ≡ taken_answer (replied c (bus_answer brought)) }
{
    numbers_collector::take(c, brought)
}

// How many of the samples, from the front, are the part that holds whole scans.
#[unsafe(no_mangle)]
pub extern "C" fn dmm32_whole_scans(samples: &[i16], low: u32, high: u32) -> usize
    ensures { result ≡ length (whole_scans samples.now low high) }
{
    numbers_collector::whole_length(samples, low, high)
}
