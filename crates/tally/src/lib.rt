// A tally that a host keeps beside its board: where every sample went, and every conversion (request M-112). `note` is called before each event, with the board
// as it stands; the board's own record stores none of it. What is counted is defined in tally_counts, how a tally takes it in specs/Tally.antt.
#![tactic(auto)]

ghost use Rattle.std.specs.Prelude.{◌≡◌, if◌then◌else◌};
ghost use Rattle.machine_record.specs.Working.{WorkingMachine};
ghost use Rattle.tally_counts.specs.Counts.{no_counts, held, counts_of, counts_at};
ghost use Rattle.tally.specs.Tally.{state_of, plus_up_to, added, noted, noted_ticks};
ghost use Rattle.tally.specs.Made.{begun_if, read_if, end_counts, taken};
ghost use Rattle.board_events.specs.declared.Event.TheVariants.{WriteByte};

use board::{Board, Event};
pub use tally_counts::Tally;

pub mod begins; // whether an event begins a conversion
pub mod sums; // the two sums, as a check

// No counts.
pub fn none() -> Tally
    ensures { result ≡ no_counts }
{
    Tally {
        begun: 0,
        ended: 0,
        abandoned: 0,
        read: 0,
        lost: 0,
        cleared: 0,
    }
}

// One conversion begun, or none.
fn begun_if(begins: bool) -> Tally
    ensures { result ≡ begun_if begins }
{
    let mut c = none();
    c.begun = begins as u64;
    c
}

// One sample read, or none: one leaves where one is held.
fn read_if(b: Board, takes: bool) -> Tally
    ensures { result ≡ read_if b takes }
{
    let mut c = none();
    c.read = (takes & (b.fifo.held != 0)) as u64;
    c
}

// An end of a conversion: a sample is lost where 512 are held, and the next conversion of a scan begins.
fn ended(b: Board) -> Tally
    ensures { result ≡ end_counts b }
{
    let begins = begins::by_end(b);
    Tally {
        begun: begins as u64,
        ended: 1,
        abandoned: 0,
        read: 0,
        lost: !(b.fifo.held < 512) as u64,
        cleared: 0,
    }
}

// What is held, where it is cleared.
fn cleared_if(b: Board, empties: bool) -> u64
    ensures { result ≡ (if empties then held b else 0) }
{
    if empties { b.fifo.held as u64 } else { 0 }
}

// A byte written: FIFORST and resets clear what is held, a reset abandons the conversion in progress, other writes may begin one.
fn written(b: Board, offset: u32, value: u8) -> Tally
    ensures { result ≡ counts_of b (WriteByte offset value) }
{
    let begins = begins::by_write(b, offset, value);
    let resets = (offset == 8) & machine::is_reset(value);
    let empties = ((offset == 7) & requests::is_fiforst(value)) | resets;
    Tally {
        begun: begins as u64,
        ended: 0,
        abandoned: ((b.converter.converting == 1) & resets) as u64,
        read: 0,
        lost: 0,
        cleared: cleared_if(b, empties),
    }
}

// What an event of a working board counts.
fn of_working(b: Board, event: Event) -> Tally
    requires { WorkingMachine b }
    ensures { result ≡ taken b event }
{
    match event {
        Event::WriteByte { offset, value } => written(b, offset, value),
        Event::ReadByte { offset } => read_if(b, offset == 1),
        Event::ReadWord { offset } => read_if(b, offset == 0),
        Event::ConversionEnd { code: _ } => {
            if b.converter.converting == 1 {
                ended(b)
            } else {
                none()
            }
        }
        Event::DinPins(d) => {
            let lines = d.lines;
            if lines > 15 {
                none()
            } else {
                begun_if(begins::by_din(b, (lines % 16) as u8))
            }
        }
        Event::LatchLevel { level: _ } => none(),
        Event::PortPins(_, _) => none(),
        Event::Tick => begun_if(board_advance::begins_in(b, 1)),
        Event::TransferEnd => none(),
    }
}

// What an event counts, of the board before it; one that is refused counts nothing.
pub fn counts(board: Board, memory: &[u16], eeprom: &[u8], event: Event) -> Tally
    ensures { result ≡ counts_at (state_of board memory.now eeprom.now) event }
{
    if (memory.len() != 512) | (eeprom.len() != 128) {
        return none();
    }
    if !board::is_working(board, memory) {
        return none();
    }
    of_working(board, event)
}

// A count with more; one that would go past its largest stays there.
#[tactic(auto, unfolding(crate::specs::Tally::plus_up_to))]
fn add(count: u64, more: u64) -> u64
    ensures { result ≡ plus_up_to count more }
{
    count.saturating_add(more)
}

// Each count with more.
fn add_all(t: Tally, c: Tally) -> Tally
    ensures { result ≡ added t c }
{
    Tally {
        begun: add(t.begun, c.begun),
        ended: add(t.ended, c.ended),
        abandoned: add(t.abandoned, c.abandoned),
        read: add(t.read, c.read),
        lost: add(t.lost, c.lost),
        cleared: add(t.cleared, c.cleared),
    }
}

// The tally with an event that is about to happen.
pub fn note(tally: Tally, board: Board, memory: &[u16], eeprom: &[u8], event: Event) -> Tally
    ensures { result ≡ noted tally board memory.now eeprom.now event }
{
    add_all(tally, counts(board, memory, eeprom, event))
}

// The tally with the ticks that `advance` is about to do: as `note` before each of them.
pub fn note_ticks(tally: Tally, board: Board, memory: &[u16], eeprom: &[u8], ticks: u32) -> Tally
    ensures { result ≡ noted_ticks tally board memory.now eeprom.now ticks }
{
    if board_refusal::check(board, memory, eeprom).is_err() {
        return tally;
    }
    add_all(tally, begun_if(board_advance::begins_in(board, ticks)))
}
