// The sample memory (manual 11.2 and Base + 7): a record by value, and 512 places that the caller lends, as a circle: place 0 follows place 511. Promises
// speak of the samples held, oldest first (`queue`), and of the memory that holds them (`layout`). Which places those are is known in this crate alone.
#![tactic(auto)]

ghost use Rattle.std.specs.Prelude.{◌≡◌, [], ◌&&◌, ◌+◌, ◌*◌, ◌≤◌, eqb, ltb, length, take, drop};
ghost use Rattle.fifo.specs.Samples.{oldest_of, low_byte_of, high_byte_of, pushed, popped};
ghost use Rattle.fifo.specs.Flags.{EF, HF, FF, flag_bits};
ghost use Rattle.fifo.specs.Queue.{turned, zeros, queue, empty_fifo, pushed_to, place_after, popped_from, Leaves, is_working_fifo, WorkingFifo};

#[repr(C)]
#[derive(Clone, Copy)]
pub struct Fifo {
    pub held: u16,
    // the place of the oldest sample; 0 where none is held
    pub place: u16,
    // wide enough that the record has no padding
    pub ovf: u16,
}

// The bits of the `n` places from `at` on, joined: none where every place is 0.
fn bits_of(memory: &[u16], at: usize, n: usize) -> u16
    requires { at + n ≤ length memory.now }
    ensures { eqb result 0 ≡ zeros (take n (drop at memory.now)) }
{
    memory[at..at + n].iter().fold(0, |bits, word| bits | *word)
}

// Whether `count` places from `from` on are 0, where these are `n` to 2 `n`: the first `n` of them and the last `n`, which may overlap.
fn ends_are_zero(memory: &[u16], from: usize, count: usize, n: usize) -> bool
    requires { (from + count ≤ length memory.now) × (length memory.now ≡ 512) × (n ≤ count) × (count ≤ 2 * n) }
    ensures { result ≡ zeros (take count (drop from memory.now)) }
{
    bits_of(memory, from, n) | bits_of(memory, from + count - n, n) == 0
}

// Whether `count` places from `from` on are 0: blocks of fixed length, which take few instructions, where there are more than 8.
fn are_zero(memory: &[u16], from: usize, count: usize) -> bool
    requires { (length memory.now ≡ 512) × (from + count ≤ 512) }
    ensures { result ≡ zeros (take count (drop from memory.now)) }
{
    if count > 64 {
        if count > 256 {
            ends_are_zero(memory, from, count, 256)
        } else if count > 128 {
            ends_are_zero(memory, from, count, 128)
        } else {
            ends_are_zero(memory, from, count, 64)
        }
    } else if count > 8 {
        if count > 32 {
            ends_are_zero(memory, from, count, 32)
        } else if count > 16 {
            ends_are_zero(memory, from, count, 16)
        } else {
            ends_are_zero(memory, from, count, 8)
        }
    } else {
        bits_of(memory, from, count) == 0
    }
}

// Whether there is such a place, and every place is 0 from `held` places behind it on, round to it: one stretch or two.
fn free_are_zero(memory: &[u16], place: usize, held: usize) -> bool
    requires { (length memory.now ≡ 512) × (held ≤ 512) }
    ensures { result ≡ ltb place 512 && zeros (drop held (turned place memory.now)) }
{
    if place == 0 {
        are_zero(memory, held, 512 - held)
    } else if 512 <= place {
        false
    } else if place + held < 512 {
        are_zero(memory, place + held, 512 - (place + held)) & are_zero(memory, 0, place)
    } else {
        are_zero(memory, place + held - 512, 512 - held)
    }
}

// Whether this is a working board's sample memory. OVF is 0, or 1 at 512 held.
pub fn is_working(f: Fifo, memory: &[u16]) -> bool
    ensures { result ≡ is_working_fifo f memory.now }
{
    if (memory.len() == 512) & (f.held <= 512) & (f.ovf <= f.held / 512) {
        if f.held == 0 {
            (f.place == 0) & (bits_of(memory, 0, 512) == 0)
        } else {
            free_are_zero(memory, f.place as usize, f.held as usize)
        }
    } else {
        false
    }
}

// The oldest sample, where one is held. Every number of 16 bits is a sample.
pub fn oldest(f: Fifo, memory: &[u16]) -> Option<u16>
    requires { WorkingFifo f memory.now }
    ensures { result ≡ oldest_of (queue f memory.now) }
{
    if f.held == 0 {
        return None;
    }
    Some(memory[f.place as usize])
}

// The low byte of the oldest sample; FF where none is held.
pub fn low_byte(oldest: Option<u16>) -> u8
    ensures { result ≡ low_byte_of oldest }
{
    match oldest {
        None => 0xFF,
        Some(sample) => (sample % 256) as u8,
    }
}

// Its high byte; FF where none is held.
pub fn high_byte(oldest: Option<u16>) -> u8
    ensures { result ≡ high_byte_of oldest }
{
    match oldest {
        None => 0xFF,
        Some(sample) => (sample / 256) as u8,
    }
}

// A conversion's end: the new sample is kept, or lost where 512 are held.
pub fn push(f: Fifo, memory: &mut [u16], sample: u16) -> Fifo
    requires { WorkingFifo f memory.old }
    ensures { Leaves (pushed_to f) (pushed (queue f memory.old) sample) result memory.new }
{
    if f.held < 512 {
        memory[((f.place + f.held) % 512) as usize] = sample;
        Fifo {
            held: f.held + 1,
            ..f
        }
    } else {
        Fifo { ovf: 1, ..f }
    }
}

// The place of the oldest sample once one has left.
fn place_after(f: Fifo) -> u16
    requires { f.place ≤ 511 }
    ensures { result ≡ place_after f }
{
    if f.held == 1 { 0 } else { (f.place + 1) % 512 }
}

// A sample is read: the oldest leaves, its place becomes 0, and OVF clears. Where none is held, nothing changes.
pub fn pop(f: Fifo, memory: &mut [u16]) -> Fifo
    requires { WorkingFifo f memory.old }
    ensures { Leaves (popped_from f) (popped (queue f memory.old)) result memory.new }
{
    if f.held == 0 {
        return f;
    }
    memory[f.place as usize] = 0;
    Fifo {
        held: f.held - 1,
        place: place_after(f),
        ovf: 0,
    }
}

// The record of a memory that holds nothing.
pub fn empty() -> Fifo
    ensures { result ≡ empty_fifo }
{
    Fifo {
        held: 0,
        place: 0,
        ovf: 0,
    }
}

// A FIFO reset, or a board's: whatever the 512 places hold, no sample is held afterwards.
pub fn clear(memory: &mut [u16]) -> Fifo
    requires { length memory.old ≡ 512 }
    ensures { Leaves empty_fifo [] result memory.new }
{
    memory.fill(0);
    empty()
}

// EF: the memory is empty.
pub fn is_empty(f: Fifo) -> bool
    ensures { result ≡ EF f }
{
    f.held == 0
}

// HF: it is at least half full.
pub fn is_half_full(f: Fifo) -> bool
    ensures { result ≡ HF f }
{
    f.held >= 256
}

// FF: it is full.
pub fn is_full(f: Fifo) -> bool
    ensures { result ≡ FF f }
{
    f.held == 512
}

// EF, HF, FF and OVF as they stand in the byte read at Base + 7.
pub fn flag_bits(f: Fifo) -> u8
    ensures { result ≡ flag_bits f }
{
    base::weight(is_empty(f), 128)
        + base::weight(is_half_full(f), 64)
        + base::weight(is_full(f), 32)
        + base::weight(f.ovf == 1, 16)
}
