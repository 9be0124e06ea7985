// The operations of a case:
//   wOOHH byte write; rOO byte read; xOO word read; eHHHH conversion end, the code's 16 bits; dHH DIN pins; lH Latch level; pNHH pins of
//   port N (0 A, 1 B, 2 C); tHHHH so many ticks; f transfer end; bNZ a fresh board, jumpers N, zero scale Z; nHHHH so many software-triggered
//   conversions, whose codes count on; mOOHH, hOOOOHHHH the host sets a place of EEPROM, of sample memory; zNN spoils the board; y, q show it;
//   k shows the tally that is kept beside it, o begins one with the board as it stands.
// Offsets, DIN and Latch levels of more digits are handed on as they stand.
use super::bench::BoardBench;
use board::{Din, Event, Jumpers};
use cases::{Bench, Operation};
use cases_board_host::view;
use std::io;

fn write_of(value: u32) -> Event {
    Event::WriteByte {
        offset: value / 256,
        value: (value % 256) as u8,
    }
}

fn end_of(bits: u16) -> Event {
    Event::ConversionEnd {
        code: converter::codes::code(bits),
    }
}

fn port_pins_of(value: u32) -> Event {
    Event::PortPins(cases::port_of(value / 256 % 16), (value % 256) as u8)
}

// The event that an operation is, if it is one.
fn event_of(operation: Operation) -> Option<Event> {
    let value = operation.value;
    match operation.letter {
        b'w' => Some(write_of(value)),
        b'r' => Some(Event::ReadByte { offset: value }),
        b'x' => Some(Event::ReadWord { offset: value }),
        b'e' => Some(end_of((value % 65536) as u16)),
        b'd' => Some(Event::DinPins(Din { lines: value })),
        b'l' => Some(Event::LatchLevel { level: value }),
        b'p' => Some(port_pins_of(value)),
        b'f' => Some(Event::TransferEnd),
        _ => None,
    }
}

impl BoardBench {
    fn ticks(&mut self, rt: &impl Print, count: u32) -> io::Result<()> {
        for _ in 0..count {
            self.happen(rt, Event::Tick)?;
        }
        Ok(())
    }

    // Software-triggered conversions, each with its end.
    fn conversions(&mut self, rt: &impl Print, count: u32) -> io::Result<()> {
        for _ in 0..count {
            self.happen(rt, write_of(0))?;
            self.happen(rt, end_of(self.code))?;
            self.code = self.code.wrapping_add(1);
        }
        Ok(())
    }

    fn set_byte(&mut self, value: u32) {
        let at = (value / 256 % 256) as usize;
        if let Some(byte) = self.eeprom.get_mut(at) {
            *byte = (value % 256) as u8;
        }
    }

    fn set_place(&mut self, value: u32) {
        let at = (value / 65536) as usize;
        if let Some(place) = self.memory.get_mut(at) {
            *place = (value % 65536) as u16;
        }
    }

    fn show_samples(&self, rt: &impl Print) -> io::Result<()> {
        let samples = view::Samples {
            fifo: self.board.fifo,
            memory: &self.memory,
            places: self.places,
        };
        print!(rt; " {samples}")
    }

    // What is no single event: a row of events, or a thing that the host does.
    fn host(&mut self, rt: &impl Print, operation: Operation) -> io::Result<()> {
        let value = operation.value;
        match operation.letter {
            b't' => self.ticks(rt, value % 65536)?,
            b'n' => self.conversions(rt, value % 65536)?,
            b'b' => self.start(cases::jumpers_of(value / 16 % 16), value % 16 == 1),
            b'z' => self.spoil(value),
            b'o' => self.begin_tally(),
            b'm' => self.set_byte(value),
            b'h' => self.set_place(value),
            b'y' => print!(rt; " {}", view::Host(self.board))?,
            b'q' => self.show_samples(rt)?,
            b'k' => self.show_tally(rt)?,
            _ => {}
        }
        Ok(())
    }
}

impl Bench for BoardBench {
    fn operate<R: Print>(&mut self, rt: &R, operation: Operation) -> io::Result<()> {
        match event_of(operation) {
            Some(event) => self.happen(rt, event),
            None => self.host(rt, operation),
        }
    }

    fn renew(&mut self) {
        self.start(Jumpers::A, false);
    }
}
