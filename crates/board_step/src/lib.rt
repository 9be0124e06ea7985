// What an event does: definitions, in specs/. Act.antt says what an event that is not refused makes of the record, Step.antt what any event makes of the
// record and both memories, and what it answers.
#![tactic(auto)]

use board_events::Answer;
use machine::Board;

// The record after an event, and its answer.
#[derive(Clone, Copy)]
pub struct Outcome {
    pub board: Board,
    pub answer: Answer,
}
