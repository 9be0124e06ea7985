// What a line does, as single deeds: each of its rounds has a number of places, and each place one deed.
use super::lines::WorldLine;
use board::{Din, Event, Jumpers};
use collector::Settings;

// View is a read at an offset whose answer is shown.
#[derive(Clone, Copy)]
pub enum Deed {
    Happen(Event),
    View(u32),
    Turn,
    Start(Settings),
    Renew(Jumpers, bool),
    End,
}

// The places of a round: B is three events, S those and turns, I ticks, an event and turns, V two reads.
pub fn places(line: &WorldLine) -> u32 {
    let first = u32::from(line.word_at(1));
    let second = u32::from(line.word_at(2));
    match line.letter {
        Some(b'B') => 3,
        Some(b'S') => 3 + first,
        Some(b'I') => first + 1 + second,
        Some(b'V') => 2,
        _ => 1,
    }
}

fn din(lines: u32) -> Deed {
    Deed::Happen(Event::DinPins(Din { lines }))
}

// A conversion end whose code is so many above the one in a field of the line.
fn end(line: &WorldLine, field: usize, above: u32) -> Deed {
    let bits = line.bits(field).wrapping_add((above % 65536) as u16);
    Deed::Happen(Event::ConversionEnd {
        code: converter::codes::code(bits),
    })
}

// B: DIN 7, a conversion end, DIN 15. What comes after them is a turn.
fn beat(line: &WorldLine, field: usize, round: u32, place: u32) -> Deed {
    match place {
        0 => din(7),
        1 => end(line, field, round),
        2 => din(15),
        _ => Deed::Turn,
    }
}

// I: ticks, a conversion end, turns.
fn interval(line: &WorldLine, round: u32, place: u32) -> Deed {
    let ticks = u32::from(line.word_at(1));
    if place < ticks {
        Deed::Happen(Event::Tick)
    } else if place == ticks {
        end(line, 3, round)
    } else {
        Deed::Turn
    }
}

fn write(line: &WorldLine) -> Deed {
    Deed::Happen(Event::WriteByte {
        offset: line.number(1),
        value: line.byte(2),
    })
}

fn settings(line: &WorldLine) -> Settings {
    Settings {
        low: line.byte(1),
        high: line.byte(2),
        jumpers: line.byte(3),
        range: line.byte(4),
        clock: line.word_at(5),
        limit: line.word_at(6),
    }
}

// The deed at a place of a round; another word does nothing.
pub fn deed_at(line: &WorldLine, round: u32, place: u32) -> Option<Deed> {
    let first = line.number(1);
    let deed = match line.letter? {
        b'W' => write(line),
        b'R' => Deed::Happen(Event::ReadByte { offset: first }),
        b'X' => Deed::Happen(Event::ReadWord { offset: 0 }),
        b'D' => din(first),
        b'L' => Deed::Happen(Event::LatchLevel { level: first }),
        b'P' => Deed::Happen(Event::PortPins(cases::port_of(first), line.byte(2))),
        b'C' => end(line, 1, 0),
        b'T' => Deed::Happen(Event::Tick),
        b'E' => Deed::Happen(Event::TransferEnd),
        b'B' => beat(line, 1, round, place),
        b'S' => beat(line, 2, round, place),
        b'I' => interval(line, round, place),
        b'V' if place == 0 => Deed::View(8),
        b'V' => Deed::View(7),
        b'f' => Deed::Renew(cases::jumpers_of(first), line.number(2) == 1),
        b's' => Deed::Start(settings(line)),
        b'e' => Deed::End,
        b't' => Deed::Turn,
        _ => return None,
    };
    Some(deed)
}
