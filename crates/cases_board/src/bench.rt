// A board on the bench: its record and its stores, how much of each store is lent to it, the next code of the operation n, and the tally beside it with the
// board that it began with.
use board::{Answer, Board, Event, Jumpers};
use cases_board_host::spoil;
use std::{fmt, io};
use tally::Tally;

#[derive(Clone, Copy)]
pub struct BoardBench {
    pub board: Board,
    pub memory: [u16; 513],
    pub eeprom: [u8; 129],
    pub places: usize,
    pub bytes: usize,
    pub code: u16,
    first: Board,
    tally: Tally,
}

// What an answer shows.
#[derive(Clone, Copy)]
struct Shown(Answer);

impl fmt::Display for Shown {
    fn fmt<W: fmt::Write>(&self, f: &mut fmt::Formatter<W>) -> fmt::Result {
        match self.0 {
            Answer::Done => Ok(()),
            Answer::Byte(byte) => write!(f, " {byte:02X}"),
            Answer::Word(word) => write!(f, " {word:04X}"),
            Answer::Nothing => f.write_str(" empty"),
            Answer::Refused(number) => write!(f, " !{number}"),
        }
    }
}

// Puts what fresh stores hold; what is beyond a store's own places stays.
fn renew_stores(memory: &mut [u16; 513], eeprom: &mut [u8; 129]) {
    board::fresh_stores(&mut memory[..512], &mut eeprom[..128]);
}

impl BoardBench {
    // A fresh board with fresh stores.
    pub fn fresh(jumpers: Jumpers, zero_scale: bool) -> BoardBench {
        let board = board::fresh(jumpers, zero_scale);
        let mut bench = BoardBench {
            board,
            memory: [0; 513],
            eeprom: [0; 129],
            places: 512,
            bytes: 128,
            code: 0,
            first: board,
            tally: tally::none(),
        };
        renew_stores(&mut bench.memory, &mut bench.eeprom);
        bench
    }

    // Puts a fresh board with fresh stores.
    pub fn start(&mut self, jumpers: Jumpers, zero_scale: bool) {
        renew_stores(&mut self.memory, &mut self.eeprom);
        self.board = board::fresh(jumpers, zero_scale);
        self.places = 512;
        self.bytes = 128;
        self.code = 0;
        self.begin_tally();
    }

    // A tally that begins with the board as it stands.
    pub fn begin_tally(&mut self) {
        self.first = self.board;
        self.tally = tally::none();
    }

    // The tally, and whether it adds up.
    pub fn show_tally(&self, rt: &impl Print) -> io::Result<()> {
        let t = self.tally;
        print!(rt;
            " begun {}, ended {}, abandoned {}",
            t.begun, t.ended, t.abandoned
        )?;
        print!(rt; ", read {}, lost {}, cleared {}", t.read, t.lost, t.cleared)?;
        if tally::sums::adds_up(t, self.first, self.board) {
            print!(rt; ": adds up")
        } else {
            print!(rt; ": does not add up")
        }
    }

    // One event, with the parts of the stores that are lent: it is noted before it happens, and its answer is shown.
    pub fn happen(&mut self, rt: &impl Print, event: Event) -> io::Result<()> {
        let BoardBench {
            board,
            memory,
            eeprom,
            places,
            bytes,
            tally,
            ..
        } = self;
        let (Some(memory), Some(eeprom)) = (memory.get_mut(..*places), eeprom.get_mut(..*bytes))
        else {
            return Ok(());
        };
        *tally = tally::note(*tally, *board, memory, eeprom, event);
        let outcome = board::step(*board, memory, eeprom, event);
        *board = outcome.board;
        match outcome.answer {
            Answer::Done => Ok(()),
            answer => print!(rt; "{}", Shown(answer)),
        }
    }

    // The spoils 00 to 04 are of the stores: how much of them is lent.
    pub fn spoil(&mut self, n: u32) {
        match n {
            0x00 => self.places = 511,
            0x01 => self.places = 513,
            0x02 => self.places = 0,
            0x03 => self.bytes = 127,
            0x04 => self.bytes = 129,
            _ => self.board = spoil::spoil_board(self.board, n),
        }
    }
}
