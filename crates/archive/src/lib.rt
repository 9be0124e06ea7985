// What the archives rest on: board and collector together. `turn` makes one turn of the collector on the board's bus; archive_demand/specs/Demand.antt
// says what holds of every run of such turns and of the world's events, and specs/Archive.antt has the theorem.
#![tactic(auto)]

pub use archive_turns::{Turned, turn};
