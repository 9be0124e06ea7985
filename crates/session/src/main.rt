// The session program: a session over standard input and standard output. What a line does and is answered by is in the crates below; each read and its answer
// in pieces.rt.
#![tactic(auto)]

mod pieces;

ghost use Rattle.std.specs.Prelude.{◌≤◌, length};

// A proved loop has to end, and nothing says that the input does: no input has as many pieces as there are turns, 2^64 - 1.
fn talk(
    rt: &(impl Input + Print),
    memory: &mut [u16],
    eeprom: &mut [u8],
    buf: &mut [u8],
    out: &mut [u8],
)
    requires { 64 ≤ length out.old }
{
    let mut input = rt.reader();
    let mut session = session_feed::begin();
    let mut more = true;
    let mut ended = false;
    let mut turns = u64::MAX;
    while turns > 0 && more {
        let taken = pieces::take_read(rt, &mut input, session, memory, eeprom, buf, out);
        session = taken.session;
        more = taken.more;
        ended = taken.ended;
        turns -= 1;
    }
    if ended & session_feed::is_begun(session) {
        pieces::answer(rt, b"\n", session, memory, eeprom, out);
    }
}

// Reads standard input to its end and answers each of its lines, the last one also where it lacks its newline. Where a read or a write fails, it ends without a
// further answer.
fn main(rt: HostRuntime) {
    let mut memory = [0u16; 512];
    let mut eeprom = [0u8; 128];
    let mut buf = [0u8; 65536];
    let mut out = [0u8; 65536];
    board::fresh_stores(&mut memory, &mut eeprom);
    talk(&rt, &mut memory, &mut eeprom, &mut buf, &mut out);
}
