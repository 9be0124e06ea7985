// Runs the worlds of standard input over the compiled board and collector together: the line language is that of the comment at the head of
// tests/archive/worlds.txt. A line is read in lines.rt and taken apart into deeds in deeds.rt; the collector's side is in tallies.rt.
#![tactic(auto)]

mod deeds;
mod lines;
mod tallies;

use board::{Answer, Board, Event, Jumpers};
use deeds::Deed;
use lines::WorldLine;
use std::io;
use tallies::{Tally, Viewed};

// The line so far, a board with its stores, and the collector's side of it.
#[derive(Drop)]
struct World {
    line: WorldLine,
    board: Board,
    memory: [u16; 512],
    eeprom: [u8; 128],
    tally: Tally,
}

impl World {
    fn begin() -> World {
        let mut world = World {
            line: WorldLine::begin(),
            board: board::fresh(Jumpers::A, false),
            memory: [0; 512],
            eeprom: [0; 128],
            tally: Tally::empty(),
        };
        board::fresh_stores(&mut world.memory, &mut world.eeprom);
        world
    }

    // Puts a fresh board with fresh stores, and no collector.
    fn renew(&mut self, jumpers: Jumpers, zero_scale: bool) {
        board::fresh_stores(&mut self.memory, &mut self.eeprom);
        self.board = board::fresh(jumpers, zero_scale);
        self.tally = Tally::empty();
    }

    fn happen(&mut self, event: Event) -> Answer {
        let outcome = board::step(self.board, &mut self.memory, &mut self.eeprom, event);
        self.board = outcome.board;
        outcome.answer
    }

    // A read whose answer is shown. A view is two of them, at 8 and at 7.
    fn view(&mut self, rt: &impl Print, offset: u32) -> io::Result<()> {
        let viewed = Viewed(self.happen(Event::ReadByte { offset }));
        if offset == 8 {
            print!(rt; "view {viewed}")
        } else {
            println!(rt; " {viewed}")
        }
    }

    // A turn of the collector on the board, where there is a collector.
    fn turn(&mut self, rt: &impl Print) -> io::Result<()> {
        let Some(collector) = self.tally.collector else {
            return Ok(());
        };
        let turned = archive_turns::turn(collector, self.board, &mut self.memory, &mut self.eeprom);
        self.board = turned.board;
        self.tally.take_turn(rt, turned)
    }

    fn do_deed(&mut self, rt: &impl Print, deed: Deed) -> io::Result<()> {
        match deed {
            Deed::Happen(event) => {
                let answer = self.happen(event);
                self.tally.take_answer(answer);
            }
            Deed::View(offset) => self.view(rt, offset)?,
            Deed::Turn => self.turn(rt)?,
            Deed::Renew(jumpers, zero_scale) => self.renew(jumpers, zero_scale),
            Deed::Start(settings) => self.tally.start(rt, settings)?,
            Deed::End => println!(rt; "{}", self.tally)?,
        }
        Ok(())
    }

    // All rounds of a line.
    fn do_line(&mut self, rt: &impl Print, line: WorldLine) -> io::Result<()> {
        for round in 0..line.rounds() {
            for place in 0..deeds::places(&line) {
                if let Some(deed) = deeds::deed_at(&line, round, place) {
                    self.do_deed(rt, deed)?;
                }
            }
        }
        Ok(())
    }

    // The next byte: a line feed ends the line, which then happens.
    fn take(&mut self, rt: &impl Print, byte: u8) -> io::Result<()> {
        self.line.take(rt, byte)?;
        if byte == b'\n' {
            self.do_line(rt, self.line)?;
            self.line = WorldLine::begin();
        }
        Ok(())
    }
}

fn main(rt: HostRuntime) -> io::Result<()> {
    let mut world = World::begin();
    cases::each_byte(&rt, |byte| world.take(&rt, byte))
}
