// One line that was read is answered.
#![tactic(auto)]

ghost use Rattle.std.specs.Prelude.{◌-◌, ◌≤◌, length};
ghost use Rattle.session_talk.specs.Session.{talk_of};
ghost use Rattle.session_line.specs.Done.{Done, Happened, NotCommanded};

use board::{Board, Event};
use session_reading::Reading;
use session_talk::Session;

// The session after a line, and the place after its answer.
#[derive(Clone, Copy)]
pub struct Answered {
    pub session: Session,
    pub at: usize,
}

// An event happens, and its line is answered.
fn happen(
    board: Board,
    number: u64,
    event: Event,
    memory: &mut [u16],
    eeprom: &mut [u8],
    out: &mut [u8],
    at: usize,
) -> Answered
    requires { (at ≤ length out.old) × (64 ≤ length out.old - at) }
    ensures { Happened board number event memory.old eeprom.old out.old at memory.new eeprom.new
        out.new result }
{
    let asked = requests::is_asking(board.requests.flags);
    let outcome = board::step(board, memory, eeprom, event);
    let asks = requests::is_asking(outcome.board.requests.flags);
    let place = session_answers::put_event(number, outcome.answer, !asked & asks, out, at);
    Answered {
        session: Session {
            board: outcome.board,
            reading: Reading::Blank,
            number,
        },
        at: place,
    }
}

// A line that is no command.
fn refuse(board: Board, number: u64, out: &mut [u8], at: usize) -> Answered
    requires { (at ≤ length out.old) × (64 ≤ length out.old - at) }
    ensures { NotCommanded board number out.old at out.new result }
{
    let place = session_answers::put_bad(number, out, at);
    Answered {
        session: Session {
            board,
            reading: Reading::Blank,
            number,
        },
        at: place,
    }
}

// Answers the line that was read.
pub fn answer_line(
    session: Session,
    memory: &mut [u16],
    eeprom: &mut [u8],
    out: &mut [u8],
    at: usize,
) -> Answered
    requires { (at ≤ length out.old) × (64 ≤ length out.old - at) }
    ensures { Done (talk_of session memory.old eeprom.old) out.old at memory.new eeprom.new
        out.new result }
{
    let number = session.number.wrapping_add(1);
    let command = session_commands::command_at(session.reading);
    match session_talk::wanted_by(command) {
        None => refuse(session.board, number, out, at),
        Some(event) => happen(session.board, number, event, memory, eeprom, out, at),
    }
}
