// One turn of the collector on the bus of a board (the specification, "The collector"; "a collector driving it through bus accesses"): the
// access that the collector names is made as an event of the board, and the board's answer is handed to the collector.
#![tactic(auto)]

ghost use Rattle.std.specs.Prelude.{◌≡◌};
ghost use Rattle.archive_turns.specs.Turn.{event_of, brought_by, unturned, taken_by};
ghost use Rattle.archive_turns.specs.Real.{as_struct, Left, lent_turn};
ghost use Rattle.archive_turns.specs.Hosts.{words};

use base::Refusal;
use board::{Answer, Board, Event};
use collector::{Access, BusAnswer, Collector, Handed};

// After a turn: the collector, the board, the polls of the current start (with a gap, of the start that ends), and what is handed over.
#[derive(Clone, Copy)]
pub struct Turned {
    pub collector: Collector,
    pub board: Board,
    pub polls: u16,
    pub handed: Handed,
}

// The event of an access, or the number by which the collector names none.
pub fn event_of(access: Result<Access, Refusal>) -> Result<Event, Refusal>
    ensures { result ≡ event_of access }
{
    match access {
        Ok(Access::WriteByte { offset, value }) => Ok(Event::WriteByte {
            offset: offset as u32,
            value,
        }),
        Ok(Access::ReadByte { offset }) => Ok(Event::ReadByte {
            offset: offset as u32,
        }),
        Ok(Access::ReadWord { offset }) => Ok(Event::ReadWord {
            offset: offset as u32,
        }),
        Err(refusal) => Err(refusal),
    }
}

// What the board's answer is to the collector: a number, nothing or a refusal. The answer to a write isn't looked at: 0 stands for it.
pub fn bus_answer(answer: Answer) -> BusAnswer
    ensures { result ≡ brought_by answer }
{
    match answer {
        Answer::Done => BusAnswer::Number(0),
        Answer::Byte(byte) => BusAnswer::Number(byte as u16),
        Answer::Word(word) => BusAnswer::Number(word),
        Answer::Nothing => BusAnswer::Nothing,
        Answer::Refused(number) => BusAnswer::Refused(number),
    }
}

// No access is named: the collector stays, and the number says why.
fn without_access(collector: Collector, board: Board, number: u8) -> Turned
    ensures { result ≡ as_struct (unturned collector board number) }
{
    Turned {
        collector,
        board,
        polls: collector.polls,
        handed: Handed::Refused(number),
    }
}

// The collector takes what the access brought.
fn hand_over(collector: Collector, board: Board, answer: Answer) -> Turned
    ensures { result ≡ as_struct (taken_by (words.reply collector (brought_by answer)) board) }
{
    let taken = collector::take_answer(collector, bus_answer(answer));
    Turned {
        collector: taken.collector,
        board,
        polls: taken.polls,
        handed: taken.handed,
    }
}

// One turn, from whatever collector, board and memories come in. A collector that names no access, and a board that refuses it, leave all
// as it was, and the number comes back.
pub fn turn(collector: Collector, board: Board, memory: &mut [u16], eeprom: &mut [u8]) -> Turned
    ensures { Left (lent_turn collector board memory.old eeprom.old) result memory.new eeprom.new }
{
    match event_of(collector::access_of(collector)) {
        Ok(event) => {
            let outcome = board::step(board, memory, eeprom, event);
            hand_over(collector, outcome.board, outcome.answer)
        }
        Err(refusal) => without_access(collector, board, refusal.number),
    }
}
