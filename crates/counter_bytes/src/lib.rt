// Counts by bytes, and the output latch of a counter (manual, chapter 19: the data sheet): specs/Bytes.antt.
#![tactic(auto)]

ghost use Rattle.std.specs.Prelude.{◌≡◌};
ghost use Rattle.counter_bytes.specs.Bytes.{no_bytes, piece_of, bytes_after, shown, byte_shown, read_done, read_half, bytes_read, latch_taken};
ghost use Rattle.counter_bytes.specs.Working.{is_working_bus};

use counter_modes::Format;

// A written byte: the first of two, or what makes a whole count.
#[derive(Clone, Copy)]
pub enum Piece {
    First(u8),
    Whole(u16),
}

// The output latch OL, and which byte comes next.
#[repr(C)]
#[derive(Clone, Copy)]
pub struct Bus {
    pub latch: u16,
    pub latched: u8,
    // the next byte that is read is the most significant one of two
    pub halfread: u8,
    // the least significant byte of two that was written
    pub first: u8,
    pub halfwritten: u8,
}

// No latch, nothing half-written, nothing half-read.
pub fn none() -> Bus
    ensures { result ≡ no_bytes }
{
    Bus {
        latch: 0,
        latched: 0,
        halfread: 0,
        first: 0,
        halfwritten: 0,
    }
}

// What a written byte is: the first of two, or the count that it makes whole.
pub fn piece_of(f: Format, s: Bus, byte: u8) -> Piece
    ensures { result ≡ piece_of f s byte }
{
    match f {
        Format::LeastByte => Piece::Whole(byte as u16),
        Format::MostByte => Piece::Whole((byte as u16) * 256),
        Format::TwoBytes => {
            if s.halfwritten == 1 {
                Piece::Whole(base::join_bytes(s.first, byte))
            } else {
                Piece::First(byte)
            }
        }
    }
}

pub fn after_write(s: Bus, q: Piece) -> Bus
    ensures { result ≡ bytes_after s q }
{
    match q {
        Piece::First(b) => Bus {
            first: b,
            halfwritten: 1,
            ..s
        },
        Piece::Whole(_) => Bus {
            first: 0,
            halfwritten: 0,
            ..s
        },
    }
}

// The count that a read sees: the latched one, or the counting element's, `v`.
pub fn shown_count(s: Bus, v: u16) -> u16
    ensures { result ≡ shown s v }
{
    if s.latched == 1 { s.latch } else { v }
}

pub fn byte_shown(f: Format, half: bool, v: u16) -> u8
    ensures { result ≡ byte_shown f half v }
{
    let [least, most] = v.to_le_bytes();
    match f {
        Format::LeastByte => least,
        Format::MostByte => most,
        Format::TwoBytes => if half { most } else { least },
    }
}

fn read_done(s: Bus) -> Bus
    ensures { result ≡ read_done s }
{
    let mut t = s;
    t.latch = 0;
    t.latched = 0;
    t.halfread = 0;
    t
}

fn read_half(s: Bus) -> Bus
    ensures { result ≡ read_half s }
{
    Bus { halfread: 1, ..s }
}

// After a read: the latch is let go with the last byte.
pub fn after_read(f: Format, s: Bus) -> Bus
    ensures { result ≡ bytes_read f s }
{
    match f {
        Format::LeastByte => read_done(s),
        Format::MostByte => read_done(s),
        Format::TwoBytes => {
            if s.halfread == 1 {
                read_done(s)
            } else {
                read_half(s)
            }
        }
    }
}

// The latch command, with the counting element at `v`.
pub fn take_latch(s: Bus, v: u16) -> Bus
    ensures { result ≡ latch_taken s v }
{
    if s.latched == 1 {
        s
    } else {
        Bus {
            latch: v,
            latched: 1,
            ..s
        }
    }
}

// Whether every flag is 0 or 1.
pub fn is_working(s: Bus) -> bool
    ensures { result ≡ is_working_bus s }
{
    // the bits that no flag has
    (base::join_bytes(s.latched, s.halfread) & 0xFEFE == 0) & (s.halfwritten <= 1)
}
