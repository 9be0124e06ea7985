// The counters and the dividers in a tick of the 10 MHz clock: specs/Tick.antt, specs/InPlace.antt.
#![tactic(auto)]

ghost use Rattle.std.specs.Prelude.{◌≡◌};
ghost use Rattle.counter_one.specs.Working.{WorkingCounter};
ghost use Rattle.machine_record.specs.Working.{WorkingClocks};
ghost use Rattle.machine_tick.specs.Tick.{clock0, clock1, next_tick};
ghost use Rattle.machine_tick.specs.InPlace.{pulsed_if, clocks_ticked};

use counter::Counter;
use machine_record::Clocks;
use timer::Gates;

// Whether counter 0 has a clock pulse in a tick, at a byte of Base+10 and the 10 kHz divider after the tick.
pub fn clocks_0(counting: u8, thousand: u16) -> bool
    ensures { result ≡ clock0 counting thousand }
{
    !(counting / 2 % 2 == 1) & (!(counting / 64 % 2 == 1) | (thousand == 0))
}

// Whether counter 1 has one, at a byte of Base+10 and the 100 kHz divider after the tick.
pub fn clocks_1(counting: u8, hundred: u16) -> bool
    ensures { result ≡ clock1 counting hundred }
{
    !(counting / 128 % 2 == 1) | (hundred == 0)
}

// A divider after a tick: one more, and 0 after its last.
pub fn next_tick(n: u16, last: u16) -> u16
    ensures { result ≡ next_tick n last }
{
    if n < last { n + 1 } else { 0 }
}

// A counter after a CLK pulse, where its clock has one.
#[inline(always)]
pub fn pulse_if(k: Counter, gate: bool, clocks: bool) -> Counter
    requires { WorkingCounter k }
    ensures { result ≡ pulsed_if clocks k gate }
{
    if clocks {
        counter::pulse_working(k, gate)
    } else {
        k
    }
}

// A working board's clocks after a tick, at a byte of Base+10 and gates: the dividers; counter 0; counter 1, and counter 2 where OUT1 falls.
pub fn tick_clocks(l: Clocks, counting: u8, g: Gates) -> Clocks
    requires { WorkingClocks l }
    ensures { result ≡ clocks_ticked counting g l }
{
    let hundred = next_tick(l.hundred, 99);
    let thousand = next_tick(l.thousand, 999);
    let clocks0 = clocks_0(counting, thousand);
    let mut t = l.timer;
    t.counter0 = pulse_if(l.timer.counter0, g.gate0, clocks0);
    if clocks_1(counting, hundred) {
        let was1 = l.timer.counter1.count.out == 1;
        let k1 = counter::pulse_working(l.timer.counter1, g.gate12);
        t.counter1 = k1;
        if timer::has_fallen(was1, k1.count.out == 1) {
            t.counter2 = counter::pulse_working(l.timer.counter2, g.gate12);
        }
    }
    Clocks {
        timer: t,
        hundred,
        thousand,
    }
}
