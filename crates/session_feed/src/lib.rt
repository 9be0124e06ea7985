// A session: the text of standard input, fed piece by piece, and what is printed for it. The state is a record by value; what is printed is
// written to a lent slice.
#![tactic(auto)]

ghost use Rattle.std.specs.Prelude.{◌<◌, ◌≤◌, ◌-◌, length};
ghost use Rattle.session_talk.specs.Session.{talk_of};
ghost use Rattle.session_feed.specs.Feeding.{FeedsOn, Feeds};

pub use session_talk::{Session, begin, is_begun};

// The session after what was fed, how much of `out` was written, and how many bytes of the piece were taken.
#[derive(Clone, Copy)]
pub struct Fed {
    pub session: Session,
    pub at: usize,
    pub taken: usize,
}

// From the byte i of the piece to the line's end, or to the piece's.
fn advance(
    piece: &[u8],
    i: usize,
    session: Session,
    memory: &mut [u16],
    eeprom: &mut [u8],
    out: &mut [u8],
    at: usize,
) -> Fed
    requires { (i < length piece.now) × (at ≤ length out.old) × (64 ≤ length out.old - at) }
    ensures { FeedsOn (talk_of session memory.old eeprom.old) piece.now i out.old at memory.new
        eeprom.new out.new result }
{
    let found = session_reading::read_line(piece, i, session.reading);
    let open = Session {
        reading: found.reading,
        ..session
    };
    if found.end < piece.len() {
        let done = session_line::answer_line(open, memory, eeprom, out, at);
        Fed {
            session: done.session,
            at: done.at,
            taken: found.end + 1,
        }
    } else {
        Fed {
            session: open,
            at,
            taken: found.end,
        }
    }
}

// Takes the piece byte after byte, up to its end or to where fewer than 64 bytes of `out` are free; each line that ends is answered in `out`.
pub fn feed(
    piece: &[u8],
    mut session: Session,
    memory: &mut [u16],
    eeprom: &mut [u8],
    out: &mut [u8],
) -> Fed
    ensures { Feeds (talk_of session memory.old eeprom.old) piece.now out.old memory.new
        eeprom.new out.new result }
{
    let mut at = 0;
    let mut i = 0;
    while i < piece.len() {
        if out.len() - at < 64 {
            return Fed {
                session,
                at,
                taken: i,
            };
        }
        let fed = advance(piece, i, session, memory, eeprom, out, at);
        session = fed.session;
        at = fed.at;
        i = fed.taken;
    }
    Fed {
        session,
        at,
        taken: i,
    }
}
