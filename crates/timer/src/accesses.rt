// What the bus writes to and reads of the timer (manual, chapter 19): control words, bytes of counts, reads. Each is a function on the three
// counters by value, total over any record, and its contract is a definition of specs/Bus.antt.
ghost use Rattle.std.specs.Prelude.{◌≡◌};
ghost use Rattle.timer.specs.Bus.{selected, control_word_refused, control_word_written, count_refused, count_written, timer_read};

use crate::{Gates, Select, Timer};
use base::Refusal;

// The byte that a read gives, and the timer after it.
#[derive(Clone, Copy)]
pub struct TimerRead {
    pub byte: u8,
    pub timer: Timer,
}

// By what a setting that is not modelled is refused.
const NOT_MODELLED: Refusal = Refusal { number: 7 };

fn select_of(sc: u8) -> Select
    ensures { result ≡ selected sc }
{
    match sc {
        0 => Select::Counter0,
        1 => Select::Counter1,
        _ => Select::Counter2,
    }
}

// Whether a control word is refused.
#[tactic(auto, unfolding(crate::specs::Bus::control_word_refused))]
pub fn refuses_control(word: u8) -> bool
    ensures { result ≡ control_word_refused word }
{
    (word / 64 % 4 == 3) | counter::refuses_word(word)
}

// A control word: it goes to the counter that it selects.
#[tactic(auto, unfolding(crate::specs::Bus::control_word_written))]
pub fn write_control(t: Timer, word: u8, g: Gates) -> Result<Timer, Refusal>
    ensures { result ≡ control_word_written t word g }
{
    if refuses_control(word) {
        Err(NOT_MODELLED)
    } else {
        let s = select_of(word / 64 % 4);
        Ok(crate::move_counter(t, s, counter::write_word(crate::counter_of(t, s), word), g))
    }
}

// Whether a byte of a count for a counter is refused.
#[tactic(auto, unfolding(crate::specs::Bus::count_refused))]
pub fn refuses_count(t: Timer, s: Select, byte: u8) -> bool
    ensures { result ≡ count_refused t s byte }
{
    counter::refuses_byte(crate::counter_of(t, s), byte)
}

// A byte of a count.
#[tactic(auto, unfolding(crate::specs::Bus::count_written))]
pub fn write_count(t: Timer, s: Select, byte: u8, g: Gates) -> Result<Timer, Refusal>
    ensures { result ≡ count_written t s byte g }
{
    if refuses_count(t, s, byte) {
        Err(NOT_MODELLED)
    } else {
        Ok(crate::move_counter(t, s, counter::write_byte(crate::counter_of(t, s), byte), g))
    }
}

// A read of a counter.
#[tactic(auto, unfolding(crate::specs::Bus::timer_read))]
pub fn read(t: Timer, s: Select) -> TimerRead
    ensures { result ≡ timer_read t s }
{
    let a = counter::read(crate::counter_of(t, s));
    TimerRead {
        byte: a.byte,
        timer: crate::put_counter(t, s, a.counter),
    }
}
