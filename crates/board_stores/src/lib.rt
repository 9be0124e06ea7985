// The two lent memories when they are fresh: specs/Stores.antt.
#![tactic(auto)]

ghost use Rattle.std.specs.Prelude.{◌≡◌};
ghost use Rattle.board_stores.specs.Stores.{fresh_memory, fresh_eeprom, stores_answer};

use board_events::Answer;

// Fresh stores: both memories are zeroed. Wrong lengths are refused by 2, and nothing changes.
pub fn fresh_stores(memory: &mut [u16], eeprom: &mut [u8]) -> Answer
    ensures value { result ≡ stores_answer memory.old eeprom.old }
    ensures memory_after { memory.new ≡ fresh_memory memory.old eeprom.old }
    ensures eeprom_after { eeprom.new ≡ fresh_eeprom memory.old eeprom.old }
{
    if (memory.len() != 512) | (eeprom.len() != 128) {
        return Answer::Refused(2);
    }
    fifo::clear(memory);
    eeprom.fill(0);
    Answer::Done
}
