// Shows what a host sees of a board: output codes, DOUT pins, driven lines of the ports, TrimDAC; and the samples held.
use fifo::Fifo;
use machine::Board;
use outputs::Outputs;
use ports::{Port, Ports};
use std::fmt;

// What a host sees of a board.
#[derive(Clone, Copy)]
pub struct Host(pub Board);

impl fmt::Display for Host {
    fn fmt<W: fmt::Write>(&self, f: &mut fmt::Formatter<W>) -> fmt::Result {
        let board = self.0;
        write!(
            f,
            "{}/{}",
            Codes(board.outputs),
            Dout(machine::dout_pins(board))
        )?;
        let port_a = DrivenLines(board.ports, Port::PortA);
        let port_b = DrivenLines(board.ports, Port::PortB);
        let port_c = DrivenLines(board.ports, Port::PortC);
        write!(f, "/{port_a},{port_b},{port_c}/")?;
        for value in board.calibration.trim {
            write!(f, "{value:02X}")?;
        }
        Ok(())
    }
}

// The four output codes. A code above 4095 is shown as 1000.
#[derive(Clone, Copy)]
struct Codes(Outputs);

impl fmt::Display for Codes {
    fn fmt<W: fmt::Write>(&self, f: &mut fmt::Formatter<W>) -> fmt::Result {
        let code0 = outputs::code_at(self.0, 0).min(0x1000);
        let code1 = outputs::code_at(self.0, 1).min(0x1000);
        let code2 = outputs::code_at(self.0, 2).min(0x1000);
        let code3 = outputs::code_at(self.0, 3).min(0x1000);
        write!(f, "{code0:03X},{code1:03X},{code2:03X},{code3:03X}")
    }
}

// The levels of DOUT2, DOUT1, DOUT0.
#[derive(Clone, Copy)]
struct Dout(u8);

fn level_of(high: bool) -> char {
    if high { 'H' } else { 'L' }
}

impl fmt::Display for Dout {
    fn fmt<W: fmt::Write>(&self, f: &mut fmt::Formatter<W>) -> fmt::Result {
        let dout2 = level_of(self.0 / 4 % 2 == 1);
        let dout1 = level_of(self.0 / 2 % 2 == 1);
        let dout0 = level_of(self.0 % 2 == 1);
        write!(f, "{dout2}{dout1}{dout0}")
    }
}

// Which lines of a port are driven, and their levels.
#[derive(Clone, Copy)]
struct DrivenLines(Ports, Port);

impl fmt::Display for DrivenLines {
    fn fmt<W: fmt::Write>(&self, f: &mut fmt::Formatter<W>) -> fmt::Result {
        let driven = ports::driven_lines(self.0, self.1);
        let levels = ports::driven_levels(self.0, self.1);
        write!(f, "{driven:02X}.{levels:02X}")
    }
}

// How many samples are held; the oldest and the newest of them, where the memory that is lent has their places.
#[derive(Clone, Copy)]
pub struct Samples<'a> {
    pub fifo: Fifo,
    pub memory: &'a [u16],
    // How many places there are, round which the samples stand.
    pub places: usize,
}

impl Samples<'_> {
    // The place of the newest sample; none where none is held, or where they are not within the places.
    fn newest(&self) -> Option<usize> {
        let place = self.fifo.place as usize;
        let held = self.fifo.held as usize;
        if held == 0 || held > self.places || place >= self.places {
            return None;
        }
        let ahead = self.places - place;
        if held <= ahead {
            Some(place + (held - 1))
        } else {
            Some(held - ahead - 1)
        }
    }
}

impl fmt::Display for Samples<'_> {
    fn fmt<W: fmt::Write>(&self, f: &mut fmt::Formatter<W>) -> fmt::Result {
        write!(f, "{}", self.fifo.held)?;
        if let Some(newest) = self.newest() {
            let oldest = self.memory.get(self.fifo.place as usize);
            if let (Some(oldest), Some(newest)) = (oldest, self.memory.get(newest)) {
                write!(f, ":{oldest:04X}-{newest:04X}")?;
            }
        }
        Ok(())
    }
}
