// Ticks of a working board's clocks, many in one call: specs/Strides.antt. Ticks in which counts alone move, and whole periods of counter 1, are taken at once
// (skips.rt); any other is one tick, mostly by the counts and OUTs of counters 1 and 2 alone (specs/Settled.antt). `counting` is the byte of Base+10.
#![tactic(auto)]

ghost use Rattle.std.specs.Prelude.{◌≡◌, if◌then◌else◌};
ghost use Rattle.machine_record.specs.Working.{WorkingClocks};
ghost use Rattle.counter_pulses.specs.Faces.{face_counted};
ghost use Rattle.machine_strides.specs.Bursts.{burst_after};
ghost use Rattle.machine_strides.specs.Strides.{stride_of};
ghost use Rattle.machine_strides.specs.Settled.{Settled, settled_for, faced_at, StrideAnyway};

use counter_pulses::{Face, Pace};
use machine_record::Clocks;
use timer::Gates;

mod skips; // ticks that are passed over at once

// What ticks go by: the byte of Base+10, and the gates.
#[derive(Clone, Copy)]
pub struct Setting {
    pub counting: u8,
    pub gates: Gates,
}

// The clocks after some ticks, how many were done, and whether OUT0 or OUT2 fell in the last one, where it was heard.
#[derive(Clone, Copy)]
pub struct Stride {
    pub clocks: Clocks,
    pub done: u32,
    pub fell0: bool,
    pub fell2: bool,
}

// Whether counters 1 and 2 have no trigger and no count to load and counter 1 has every tick's pulse, while the count of counter 0 alone moves.
fn is_settled(l: Clocks, by: Setting, ticks: u32) -> bool
    requires { WorkingClocks l }
    ensures { result ≡ settled_for by.counting by.gates ticks l }
{
    let q0 = counter_pulses::quiet_pulses(l.timer.counter0, by.gates.gate0);
    let near = ticks as u64 <= skips::reach_0(by.counting, l.thousand, q0);
    let settled1 = counter_pulses::is_settled(l.timer.counter1);
    let settled2 = counter_pulses::is_settled(l.timer.counter2);
    near & !(by.counting / 128 % 2 == 1) & settled1 & settled2
}

// A face after a pulse, where there is one.
fn count_if(pulse: bool, p: Pace, f: Face) -> Face
    ensures { result ≡ (if pulse then face_counted p f else f) }
{
    if pulse {
        counter_pulses::count_on(p, f)
    } else {
        f
    }
}

// The clocks some ticks on, with these faces of counters 1 and 2.
fn put_faces(l: Clocks, by: Setting, ticks: u32, f1: Face, f2: Face) -> Clocks
    requires { WorkingClocks l }
    ensures { result ≡ faced_at by.counting by.gates ticks l f1 f2 }
{
    let p0 = skips::pulses_0(by.counting, l.thousand, ticks);
    let mut t = l.timer;
    t.counter0 = counter_pulses::leap_counter(l.timer.counter0, by.gates.gate0, p0);
    t.counter1 = counter_pulses::put_face(l.timer.counter1, f1);
    t.counter2 = counter_pulses::put_face(l.timer.counter2, f2);
    Clocks {
        timer: t,
        hundred: skips::divider_after(l.hundred, 99, ticks),
        thousand: skips::divider_after(l.thousand, 999, ticks),
    }
}

// Ticks one by one of settled clocks, as far as the first in which OUT2 falls and is heard; OUT0 falls in none. The ticks are counted by hand, and `count_on`
// takes one off by std::num: with a `for` and a method they take a tenth more instructions at counts of 2 (bench/run).
fn tick_faces(l: Clocks, by: Setting, heard2: bool, ticks: u32) -> Stride
    requires { Settled by.counting by.gates ticks l }
    ensures { StrideAnyway by.counting by.gates heard2 ticks l result }
{
    let p1 = counter_pulses::pace_of(l.timer.counter1, by.gates.gate12);
    let p2 = counter_pulses::pace_of(l.timer.counter2, by.gates.gate12);
    let mut f1 = counter_pulses::face_of(l.timer.counter1);
    let mut f2 = counter_pulses::face_of(l.timer.counter2);
    let mut done: u32 = 0;
    while done < ticks {
        let was1 = f1.out == 1;
        let was2 = f2.out == 1;
        f1 = counter_pulses::count_on(p1, f1);
        f2 = count_if(timer::has_fallen(was1, f1.out == 1), p2, f2);
        done += 1;
        let fell2 = timer::has_fallen(was2, f2.out == 1);
        if heard2 & fell2 {
            return Stride {
                clocks: put_faces(l, by, done, f1, f2),
                done,
                fell0: false,
                fell2,
            };
        }
    }
    Stride {
        clocks: put_faces(l, by, done, f1, f2),
        done,
        fell0: false,
        fell2: false,
    }
}

// Ticks one by one of any clocks, as far as the first in which OUT0 falls and is heard, or OUT2.
fn tick_each(l: Clocks, by: Setting, heard0: bool, heard2: bool, ticks: u32) -> Stride
    requires { WorkingClocks l }
    ensures { result ≡ stride_of by.counting by.gates heard0 heard2 ticks l }
{
    let mut c = l;
    for done in 0..ticks {
        let was0 = c.timer.counter0.count.out == 1;
        let was2 = c.timer.counter2.count.out == 1;
        c = machine_tick::tick_clocks(c, by.counting, by.gates);
        let fell0 = timer::has_fallen(was0, c.timer.counter0.count.out == 1);
        let fell2 = timer::has_fallen(was2, c.timer.counter2.count.out == 1);
        if heard0 & fell0 | heard2 & fell2 {
            return Stride {
                clocks: c,
                done: done + 1,
                fell0,
                fell2,
            };
        }
    }
    Stride {
        clocks: c,
        done: ticks,
        fell0: false,
        fell2: false,
    }
}

// The same, by the faces alone where the clocks are settled.
fn tick_on(l: Clocks, by: Setting, heard0: bool, heard2: bool, ticks: u32) -> Stride
    requires { WorkingClocks l }
    ensures { result ≡ stride_of by.counting by.gates heard0 heard2 ticks l }
{
    if is_settled(l, by, ticks) {
        tick_faces(l, by, heard2, ticks)
    } else {
        tick_each(l, by, heard0, heard2, ticks)
    }
}

// How many ticks go one by one after some that were skipped: OUT1 falls and rises again in two; where less than 4 were skipped it is more each time, since with
// short counts a tick costs less than to see how far one can skip.
fn burst_after(burst: u32, skipped: u32) -> u32
    ensures { result ≡ burst_after burst skipped }
{
    if 4 <= skipped {
        2
    } else if burst < 32 {
        2 * burst + 1
    } else {
        63
    }
}

// The same ticks, those at once that can be.
pub fn run(l: Clocks, by: Setting, heard0: bool, heard2: bool, ticks: u32) -> Stride
    requires { WorkingClocks l }
    ensures { result ≡ stride_of by.counting by.gates heard0 heard2 ticks l }
{
    let mut c = l;
    let mut done: u32 = 0;
    let mut burst: u32 = 0;
    while done < ticks {
        let s = skips::skip_some(c, by, ticks - done);
        c = s.clocks;
        done += s.ticks;
        burst = burst_after(burst, s.ticks);
        let most = skips::at_most(burst as u64, ticks - done);
        let t = tick_on(c, by, heard0, heard2, most);
        c = t.clocks;
        done += t.done;
        if t.fell0 | t.fell2 {
            return Stride {
                clocks: c,
                done,
                fell0: t.fell0,
                fell2: t.fell2,
            };
        }
    }
    Stride {
        clocks: c,
        done,
        fell0: false,
        fell2: false,
    }
}
