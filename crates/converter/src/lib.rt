// The A/D converter (manual 10, 11 and Base + 0, 2, 3, 6 to 9). No function here sees the sample memory.
// Channels, triggers and ends of conversions.
#![tactic(auto)]

pub mod channels;
// Signed codes and 16-bit samples.
pub mod codes;
