// Ticks that are passed over at once: those in which counts alone move, and whole periods of counter 1 (specs/Lines.antt, specs/Leaps.antt). `counting` is the
// byte of Base+10.
ghost use Rattle.std.specs.Prelude.{suc, ◌≤◌, ◌<◌, ◌+◌, ◌%◌, false, ◌≡◌};
ghost use Rattle.base.specs.Fields.{bit};
ghost use Rattle.machine_record.specs.Working.{WorkingClocks};
ghost use Rattle.machine_strides.specs.Lines.{pulses_in, reach_in, stretched};
ghost use Rattle.machine_strides.specs.Bursts.{least};
ghost use Rattle.machine_strides.specs.Strides.{Skipped};
ghost use Rattle.machine_strides.specs.Leaps.{leapt, cycled};

use super::Setting;
use machine_record::Clocks;

// The clocks after ticks in which neither OUT0 nor OUT2 falls, and how many.
#[derive(Clone, Copy)]
pub struct Skip {
    pub clocks: Clocks,
    pub ticks: u32,
}

// The CLK pulses that some ticks bring: none where the clock is stopped, and one in N ticks where a divider, now at `at`, makes it.
fn pulses<const N: u16>(stopped: bool, divided: bool, at: u16, ticks: u32) -> u32
    requires { 100 ≤ N }
    ensures { result ≡ pulses_in stopped divided N at ticks }
{
    if stopped {
        0
    } else if divided {
        ((at as u64 + ticks as u64) / N as u64) as u32
    } else {
        ticks
    }
}

// The ticks that bring at most q pulses.
fn reach<const N: u16>(stopped: bool, divided: bool, at: u16, q: u32) -> u64
    requires { at < N }
    ensures { result ≡ reach_in stopped divided N at q }
{
    if stopped {
        4294967295
    } else if divided {
        if q == 4294967295 {
            4294967295
        } else {
            (q as u64 + 1) * N as u64 - 1 - at as u64
        }
    } else {
        q as u64
    }
}

// Those to counter 0.
pub fn pulses_0(counting: u8, thousand: u16, ticks: u32) -> u32
    ensures { result ≡ pulses_in (bit counting 1) (bit counting 6) 1000 thousand ticks }
{
    pulses::<1000>(
        counting / 2 % 2 == 1,
        counting / 64 % 2 == 1,
        thousand,
        ticks,
    )
}

pub fn reach_0(counting: u8, thousand: u16, q: u32) -> u64
    requires { thousand ≤ 999 }
    ensures { result ≡ reach_in (bit counting 1) (bit counting 6) 1000 thousand q }
{
    reach::<1000>(counting / 2 % 2 == 1, counting / 64 % 2 == 1, thousand, q)
}

// Those to counter 1, whose clock is never stopped.
fn pulses_1(counting: u8, hundred: u16, ticks: u32) -> u32
    ensures { result ≡ pulses_in false (bit counting 7) 100 hundred ticks }
{
    pulses::<100>(false, counting / 128 % 2 == 1, hundred, ticks)
}

fn reach_1(counting: u8, hundred: u16, q: u32) -> u64
    requires { hundred ≤ 99 }
    ensures { result ≡ reach_in false (bit counting 7) 100 hundred q }
{
    reach::<100>(false, counting / 128 % 2 == 1, hundred, q)
}

// A divider that counts to `last`, after some ticks.
pub fn divider_after(h: u16, last: u16, ticks: u32) -> u16
    ensures { result ≡ (h + ticks) % suc last }
{
    ((h as u64 + ticks as u64) % (last as u64 + 1)) as u16
}

// The lesser of two numbers of ticks.
pub fn at_most(q: u64, most: u32) -> u32
    ensures { result ≡ least q most }
{
    if q < most as u64 { q as u32 } else { most }
}

// The ticks of a period of counter 1.
fn stretch(pulses: u32, counting: u8) -> u32
    requires { pulses ≤ 65536 }
    ensures { result ≡ stretched (bit counting 7) 100 pulses }
{
    if counting / 128 % 2 == 1 {
        pulses * 100
    } else {
        pulses
    }
}

// The clocks after ticks in which counts alone move.
fn leap(l: Clocks, by: Setting, ticks: u32) -> Clocks
    requires { WorkingClocks l }
    ensures { result ≡ leapt by.counting by.gates ticks l }
{
    let p0 = pulses_0(by.counting, l.thousand, ticks);
    let p1 = pulses_1(by.counting, l.hundred, ticks);
    let mut t = l.timer;
    t.counter0 = counter_pulses::leap_counter(l.timer.counter0, by.gates.gate0, p0);
    t.counter1 = counter_pulses::leap_counter(l.timer.counter1, by.gates.gate12, p1);
    Clocks {
        timer: t,
        hundred: divider_after(l.hundred, 99, ticks),
        thousand: divider_after(l.thousand, 999, ticks),
    }
}

// As many of them as come, `left` at most.
fn leap_some(l: Clocks, by: Setting, left: u32) -> Skip
    requires { WorkingClocks l }
    ensures { Skipped by.counting by.gates l left result }
{
    let q0 = counter_pulses::quiet_pulses(l.timer.counter0, by.gates.gate0);
    let q1 = counter_pulses::quiet_pulses(l.timer.counter1, by.gates.gate12);
    let near = at_most(reach_0(by.counting, l.thousand, q0), left);
    let ticks = at_most(reach_1(by.counting, l.hundred, q1), near);
    if ticks == 0 {
        return Skip { clocks: l, ticks };
    }
    Skip {
        clocks: leap(l, by, ticks),
        ticks,
    }
}

// The clocks after n whole periods of counter 1: it is where it was, and counter 2 has counted n.
fn cycle(l: Clocks, by: Setting, n: u32, ticks: u32) -> Clocks
    requires { WorkingClocks l }
    ensures { result ≡ cycled by.counting by.gates n ticks l }
{
    let p0 = pulses_0(by.counting, l.thousand, ticks);
    let mut t = l.timer;
    t.counter0 = counter_pulses::leap_counter(l.timer.counter0, by.gates.gate0, p0);
    t.counter2 = counter_pulses::leap_counter(l.timer.counter2, by.gates.gate12, n);
    Clocks {
        timer: t,
        hundred: divider_after(l.hundred, 99, ticks),
        thousand: divider_after(l.thousand, 999, ticks),
    }
}

// As many of them as `left` ticks can take while neither OUT0 nor OUT2 falls.
fn cycle_some(l: Clocks, by: Setting, left: u32) -> Skip
    requires { WorkingClocks l }
    ensures { Skipped by.counting by.gates l left result }
{
    let q2 = counter_pulses::quiet_pulses(l.timer.counter2, by.gates.gate12);
    let p = counter_pulses::period_of(l.timer.counter1, by.gates.gate12);
    let s = stretch(p, by.counting);
    if (q2 == 0) | (s == 0) | (left < s) {
        return Skip {
            clocks: l,
            ticks: 0,
        };
    }
    let q0 = counter_pulses::quiet_pulses(l.timer.counter0, by.gates.gate0);
    let near = at_most(reach_0(by.counting, l.thousand, q0), left);
    let n = at_most(q2 as u64, near / s);
    let ticks = n * s;
    Skip {
        clocks: cycle(l, by, n, ticks),
        ticks,
    }
}

// Whole periods, then ticks in which counts alone move.
pub fn skip_some(l: Clocks, by: Setting, left: u32) -> Skip
    requires { WorkingClocks l }
    ensures { Skipped by.counting by.gates l left result }
{
    let a = cycle_some(l, by, left);
    let m = a.clocks;
    let b = leap_some(m, by, left - a.ticks);
    let after = b.clocks;
    Skip {
        clocks: after,
        ticks: a.ticks + b.ticks,
    }
}
