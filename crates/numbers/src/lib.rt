// The board by value, with its answers as plain numbers, for hosts in other languages (include/cowriestep.h): so that the exported functions only pass them on.
#![tactic(auto)]

ghost use Rattle.std.specs.Prelude.{◌≡◌};
ghost use Rattle.board_stores.specs.Stores.{fresh_memory, fresh_eeprom, stores_answer};
ghost use Rattle.numbers_answers.specs.Packed.{answer_number};
ghost use Rattle.numbers.specs.Outcomes.{numbered_of, word_numbered};
ghost use Rattle.numbers.specs.Boards.{byte_or_all, fresh_of};

use board::{Board, Jumpers, Outcome};
use fifo::Fifo;
use numbers_collector::TakenAnswer;

pub mod stepping; // an event of each kind
pub mod time; // many ticks
pub mod turning; // one turn of the collector on the board

// The record after an event, and its answer as one number.
#[repr(C)]
#[derive(Clone, Copy)]
pub struct Numbered {
    pub board: Board,
    pub number: u32,
}

// The sample memory's record after a word read, and its answer as one number.
#[repr(C)]
#[derive(Clone, Copy)]
pub struct WordNumbered {
    pub fifo: Fifo,
    pub number: u32,
}

// The answer to many ticks, and how many were done.
#[repr(C)]
#[derive(Clone, Copy)]
pub struct ProgressNumbered {
    pub answer: u32,
    pub done: u32,
}

// The record after them, and what came of them.
#[repr(C)]
#[derive(Clone, Copy)]
pub struct AdvancedNumbered {
    pub board: Board,
    pub progress: ProgressNumbered,
}

// The board's record after a turn, and what the collector answers.
#[repr(C)]
#[derive(Clone, Copy)]
pub struct TurnNumbered {
    pub board: Board,
    pub taken: TakenAnswer,
}

// What a step answers, with the answer as a number.
pub fn in_numbers(out: Outcome) -> Numbered
    ensures { result ≡ numbered_of out }
{
    Numbered {
        board: out.board,
        number: numbers_answers::number_of(out.answer),
    }
}

// What a word read answers, with the answer as a number.
fn word_in_numbers(out: Outcome) -> WordNumbered
    ensures { result ≡ word_numbered out }
{
    let Numbered { board, number } = in_numbers(out);
    WordNumbered {
        fifo: board.fifo,
        number,
    }
}

// A number of jumpers as the record has it: 255 where a byte does not hold it.
fn byte_of(jumpers: u32) -> u8
    ensures { result ≡ byte_or_all jumpers }
{
    u8::try_from(jumpers).unwrap_or(255)
}

// A fresh board's record, for jumpers 0 to 3; any other number makes a record that is no working board's. Zero scale: 0 is no.
pub fn fresh(jumpers: u32, zero_scale: u32) -> Board
    ensures { result ≡ fresh_of jumpers zero_scale }
{
    let inputs = byte_of(jumpers);
    let mut b = board::fresh(Jumpers::A, zero_scale != 0);
    b.wiring.inputs = inputs;
    b
}

// Both memories are zeroed; wrong lengths are refused by 2, and nothing changes.
pub fn fresh_stores(memory: &mut [u16], eeprom: &mut [u8]) -> u32
    ensures value { result ≡ answer_number (stores_answer memory.old eeprom.old) }
    ensures memory_after { memory.new ≡ fresh_memory memory.old eeprom.old }
    ensures eeprom_after { eeprom.new ≡ fresh_eeprom memory.old eeprom.old }
{
    numbers_answers::number_of(board::fresh_stores(memory, eeprom))
}
