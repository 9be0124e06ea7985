// A piece of standard input is read, and its lines are answered on standard output before the next read waits.
ghost use Rattle.std.specs.Prelude.{◌≤◌, length, take};
ghost use Rattle.session_talk.specs.Session.{talk_of};
ghost use Rattle.session.specs.Took.{Took};

use session_feed::Session;
use std::io::Read;

// The session after some bytes, how many they are, whether to go on, and whether the input has come to its end.
#[derive(Clone, Copy)]
pub struct AfterBytes {
    pub session: Session,
    pub taken: usize,
    pub more: bool,
    pub ended: bool,
}

// Answers a piece: as much of it as `out` has room for, then the rest.
pub fn answer(
    rt: &impl Print,
    piece: &[u8],
    mut session: Session,
    memory: &mut [u16],
    eeprom: &mut [u8],
    out: &mut [u8],
) -> AfterBytes
    requires { 64 ≤ length out.old }
    ensures { Took (talk_of session memory.old eeprom.old) piece.now memory.new eeprom.new result }
{
    let mut from = 0;
    let mut more = true;
    while from < piece.len() {
        let fed = session_feed::feed(&piece[from..], session, memory, eeprom, out);
        session = fed.session;
        from += fed.taken;
        more = rt.write_all(&out[..fed.at]).is_ok() & more;
    }
    AfterBytes {
        session,
        taken: from,
        more,
        ended: false,
    }
}

// One read, its answer, and whether to go on. A read of no bytes is the end of the input; a read that fails is not.
pub fn take_read(
    rt: &impl Print,
    input: &mut impl Read,
    session: Session,
    memory: &mut [u16],
    eeprom: &mut [u8],
    buf: &mut [u8],
    out: &mut [u8],
) -> AfterBytes
    requires { 64 ≤ length out.old }
    ensures { Took (talk_of session memory.old eeprom.old) (take result.taken buf.new) memory.new
        eeprom.new result }
{
    let got = input.read(buf);
    let n = got.unwrap_or(0);
    if n == 0 {
        return AfterBytes {
            session,
            taken: 0,
            more: false,
            ended: got.is_ok(),
        };
    }
    answer(rt, &buf[..n], session, memory, eeprom, out)
}
