// An answer of the board as one number, for hosts in other languages (include/cowriestep.h).
#![tactic(auto)]

ghost use Rattle.std.specs.Prelude.{◌≡◌, ◌<◌};
ghost use Rattle.board_events.specs.Answers.{refusal_number};
ghost use Rattle.numbers_answers.specs.Packed.{answer_number, decoded};

use board_events::Answer;

// An answer as one number: the kind in bits 31-29 (0 done, 1 a byte, 2 a word, 3 refused, 4 nothing), the refusal in bits 28-24, the byte or word in bits
// 15-0, FFFF beside nothing.
pub fn number_of(answer: Answer) -> u32
    ensures value { result ≡ answer_number answer }
    ensures result_value { refusal_number answer < 32 → decoded result ≡ answer }
{
    match answer {
        Answer::Done => 0,
        Answer::Byte(value) => 0x20000000 + value as u32,
        Answer::Word(value) => 0x40000000 + value as u32,
        Answer::Nothing => 0x8000FFFF,
        Answer::Refused(number) => 0x60000000 + (number % 32) as u32 * 0x1000000,
    }
}
