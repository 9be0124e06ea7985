// Spoils a counter: 1 to load in mode 2, OUT low before its first control word, mode 1. Each contract is a definition of specs/Spoils.antt.
ghost use Rattle.std.specs.Prelude.{◌≡◌};
ghost use Rattle.cases_board_host.specs.Spoils.{one_to_load, out_low, mode1, spoiled_counter, spoiled_counter0, spoiled_timer};

use counter::{Count, Counter};
use timer::Timer;

// As after a control word 14, but with 1 to load.
fn one_to_load() -> Counter
    ensures { result ≡ one_to_load }
{
    let c = counter::write_word(counter::new(), 0x14);
    Counter {
        count: Count {
            register: 1,
            ..c.count
        },
        ..c
    }
}

// As on a fresh board, but with OUT low.
fn out_low() -> Counter
    ensures { result ≡ out_low }
{
    let c = counter::new();
    Counter {
        count: Count { out: 0, ..c.count },
        ..c
    }
}

// As after a control word 14, but in mode 1.
fn mode_1() -> Counter
    ensures { result ≡ mode1 }
{
    let c = counter::write_word(counter::new(), 0x14);
    Counter { control: 0x12, ..c }
}

// `one` is the number for 1 to load, `low` that for OUT low.
fn spoil_counter(c: Counter, n: u32, one: u32, low: u32) -> Counter
    ensures { result ≡ spoiled_counter c n one low }
{
    if n == one {
        one_to_load()
    } else if n == low {
        out_low()
    } else {
        c
    }
}

// Counter 0 has a number for mode 1 besides.
fn spoil_counter_0(c: Counter, n: u32) -> Counter
    ensures { result ≡ spoiled_counter0 c n }
{
    if n == 0x1B {
        mode_1()
    } else {
        spoil_counter(c, n, 0x0E, 0x0F)
    }
}

pub fn spoil_timer(t: Timer, n: u32) -> Timer
    ensures { result ≡ spoiled_timer t n }
{
    Timer {
        counter0: spoil_counter_0(t.counter0, n),
        counter1: spoil_counter(t.counter1, n, 0x1D, 0x1F),
        counter2: spoil_counter(t.counter2, n, 0x1E, 0x20),
    }
}
