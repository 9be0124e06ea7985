// Where every sample and every conversion went (request M-112): definitions of what events count, and theorems that the counts add up, in specs/.
#![tactic(auto)]

// Six counts, which no board has: a host keeps them beside it.
#[repr(C)]
#[derive(Clone, Copy)]
pub struct Tally {
    pub begun: u64, // conversions begun
    pub ended: u64, // conversions ended
    pub abandoned: u64, // conversions abandoned by a reset
    pub read: u64, // samples read
    pub lost: u64, // samples lost at a full memory
    pub cleared: u64, // samples cleared by a FIFO or board reset
}
