// A session's record: how it begins, and whether a line of it has begun; and what a command of a line wants of the board.
#![tactic(auto)]

ghost use Rattle.std.specs.Prelude.{◌≡◌};
ghost use Rattle.session_talk.specs.Session.{fresh_session, line_begun};
ghost use Rattle.session_talk.specs.Wanted.{wanted_by};

use board_events::Event;
use machine::Board;
use session_commands::Command;
use session_reading::Reading;

// The board, what the line so far is, and the number of the last line that was answered.
#[derive(Clone, Copy)]
pub struct Session {
    pub board: Board,
    pub reading: Reading,
    pub number: u64,
}

// A session with a fresh board, jumpers A, mid-scale, before its first line.
pub fn begin() -> Session
    ensures { result ≡ fresh_session }
{
    Session {
        board: machine::fresh(machine::Jumpers::A, false),
        reading: Reading::Blank,
        number: 0,
    }
}

// Whether a line has begun that no newline has ended.
pub fn is_begun(session: Session) -> bool
    ensures { result ≡ line_begun session }
{
    session_commands::is_begun(session.reading)
}

// What a command wants of the board.
pub fn wanted_by(command: Option<Command>) -> Option<Event>
    ensures { result ≡ wanted_by command }
{
    let event = match command? {
        Command::WriteByte { offset, value } => Event::WriteByte {
            offset: offset as u32,
            value,
        },
        Command::ReadByte { offset } => Event::ReadByte {
            offset: offset as u32,
        },
        Command::ReadWord => Event::ReadWord { offset: 0 },
        Command::EndConversion { sample } => Event::ConversionEnd {
            code: converter::codes::code(sample),
        },
    };
    Some(event)
}
