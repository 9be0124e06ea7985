// The operations of a case:
//   cHH control word; wNHH byte HH for counter N; rN read of counter N; kN one CLK pulse at counter N; xNHHHH as many pulses;
//   gAB gates become A (counter 0) and B (counters 1 and 2); o shows OUT0, OUT1, OUT2; f shows whether the counters are a working board's.
use base::Refusal;
use cases::{Bench, Operation};
use std::io;
use timer::{Gates, Select, Timer};

#[derive(Clone, Copy)]
pub struct TimerBench {
    timer: Timer,
    gates: Gates,
}

// The counter of a number: 0 and 1, and any other is counter 2.
fn select_of(n: u32) -> Select {
    match n {
        0 => Select::Counter0,
        1 => Select::Counter1,
        _ => Select::Counter2,
    }
}

// A timer after so many CLK pulses at counter N. With the counter known, and with a loop within a loop, the compiler makes the calls
// one with the loop: without, a pulse takes four times as long (docs/LOOK-BACK.md).
fn clocked<const N: u32>(mut timer: Timer, gates: Gates, count: u32) -> Timer {
    for _ in 0..count / 256 {
        for _ in 0..256 {
            timer = timer::clock_if(timer, select_of(N), gates, true);
        }
    }
    for _ in 0..count % 256 {
        timer = timer::clock_if(timer, select_of(N), gates, true);
    }
    timer
}

fn level_of(high: bool) -> char {
    if high { 'H' } else { 'L' }
}

impl TimerBench {
    pub fn fresh() -> TimerBench {
        TimerBench {
            timer: timer::new(),
            gates: Gates {
                gate0: true,
                gate12: true,
            },
        }
    }

    // After a write. A refusal leaves the timer, and its number is shown.
    fn wrote(&mut self, rt: &impl Print, written: Result<Timer, Refusal>) -> io::Result<()> {
        match written {
            Ok(timer) => self.timer = timer,
            Err(refusal) => print!(rt; " {}", refusal.number)?,
        }
        Ok(())
    }

    fn control(&mut self, rt: &impl Print, value: u32) -> io::Result<()> {
        let word = (value % 256) as u8;
        self.wrote(
            rt,
            timer::accesses::write_control(self.timer, word, self.gates),
        )
    }

    fn count(&mut self, rt: &impl Print, value: u32) -> io::Result<()> {
        let select = select_of(value / 256 % 16);
        let byte = (value % 256) as u8;
        self.wrote(
            rt,
            timer::accesses::write_count(self.timer, select, byte, self.gates),
        )
    }

    fn read(&mut self, rt: &impl Print, value: u32) -> io::Result<()> {
        let read = timer::accesses::read(self.timer, select_of(value % 16));
        self.timer = read.timer;
        print!(rt; " {:02X}", read.byte)
    }

    fn pulses(&mut self, n: u32, count: u32) {
        self.timer = match n {
            0 => clocked::<0>(self.timer, self.gates, count),
            1 => clocked::<1>(self.timer, self.gates, count),
            _ => clocked::<2>(self.timer, self.gates, count),
        };
    }

    fn move_gates(&mut self, value: u32) {
        let gates = Gates {
            gate0: value / 16 % 16 == 1,
            gate12: value % 16 == 1,
        };
        self.timer = timer::move_gates(self.timer, self.gates, gates);
        self.gates = gates;
    }

    fn show_outs(&self, rt: &impl Print) -> io::Result<()> {
        let out0 = level_of(timer::out_of(self.timer, Select::Counter0));
        let out1 = level_of(timer::out_of(self.timer, Select::Counter1));
        let out2 = level_of(timer::out_of(self.timer, Select::Counter2));
        print!(rt; " {out0}{out1}{out2}")
    }

    fn show_working(&self, rt: &impl Print) -> io::Result<()> {
        let fit = if timer::is_working(self.timer) {
            "fit"
        } else {
            "unfit"
        };
        print!(rt; " {fit}")
    }
}

impl Bench for TimerBench {
    fn operate<R: Print>(&mut self, rt: &R, operation: Operation) -> io::Result<()> {
        let value = operation.value;
        match operation.letter {
            b'c' => self.control(rt, value)?,
            b'w' => self.count(rt, value)?,
            b'r' => self.read(rt, value)?,
            b'k' => self.pulses(value % 16, 1),
            b'x' => self.pulses(value / 65536 % 16, value % 65536),
            b'g' => self.move_gates(value),
            b'o' => self.show_outs(rt)?,
            b'f' => self.show_working(rt)?,
            _ => {}
        }
        Ok(())
    }

    fn renew(&mut self) {
        *self = TimerBench::fresh();
    }
}
