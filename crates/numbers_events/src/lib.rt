// Any event as one record of numbers, for hosts in other languages (include/cowriestep.h), and the step that it makes, by value.
#![tactic(auto)]

ghost use Rattle.std.specs.Prelude.{◌≡◌};
ghost use Rattle.board_step.specs.Step.{step_of, memory_after, eeprom_after};
ghost use Rattle.numbers.specs.Outcomes.{numbered_of};
ghost use Rattle.numbers_events.specs.Events.{event_of};

use board::{Board, Din, Event, Port};
use numbers::Numbered;

// An event: its kind, 1 to 11, and what it carries. What a kind does not have is not looked at.
#[repr(C)]
#[derive(Clone, Copy)]
pub struct EventNumbers {
    pub kind: u8,
    pub value: u8,
    pub code: i16,
    pub offset: u32,
    pub levels: u32,
}

// The event that the numbers stand for. Another kind stands for a read outside the board, which every board refuses.
pub fn event_of(n: EventNumbers) -> Event
    ensures { result ≡ event_of n }
{
    let kind = n.kind;
    match kind {
        1 => Event::WriteByte {
            offset: n.offset,
            value: n.value,
        },
        2 => Event::ReadByte { offset: n.offset },
        3 => Event::ReadWord { offset: n.offset },
        4 => Event::ConversionEnd { code: n.code },
        5 => Event::DinPins(Din { lines: n.levels }),
        6 => Event::LatchLevel { level: n.levels },
        7 => Event::PortPins(Port::PortA, n.value),
        8 => Event::PortPins(Port::PortB, n.value),
        9 => Event::PortPins(Port::PortC, n.value),
        10 => Event::Tick,
        11 => Event::TransferEnd,
        _ => Event::ReadByte { offset: 16 },
    }
}

// One event of any kind, with its answer as a number.
pub fn step(board: Board, memory: &mut [u16], eeprom: &mut [u8], event: EventNumbers) -> Numbered
    ensures value { result ≡ numbered_of (step_of board memory.old eeprom.old (event_of event)) }
    ensures memory_after { memory.new ≡ memory_after board memory.old eeprom.old (event_of event) }
    ensures eeprom_after { eeprom.new ≡ eeprom_after board memory.old eeprom.old (event_of event) }
{
    numbers::in_numbers(board::step(board, memory, eeprom, event_of(event)))
}
