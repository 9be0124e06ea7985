// What the modes differ in: specs/Modes.antt, a line for each mode.
ghost use Rattle.std.specs.Prelude.{◌≡◌};
ghost use Rattle.counter_modes.specs.Modes.{first_out, load_out, byte_stops, loads_at_once, trigger_loads, gate_raises, from_two};

use super::Mode;

pub fn first_out(m: Mode) -> bool
    ensures { result ≡ first_out m }
{
    match m {
        Mode::TerminalCount => false,
        Mode::RateGenerator => true,
    }
}

pub fn load_out(m: Mode) -> bool
    ensures { result ≡ load_out m }
{
    match m {
        Mode::TerminalCount => false,
        Mode::RateGenerator => true,
    }
}

pub fn byte_stops(m: Mode) -> bool
    ensures { result ≡ byte_stops m }
{
    match m {
        Mode::TerminalCount => true,
        Mode::RateGenerator => false,
    }
}

pub fn loads_at_once(m: Mode) -> bool
    ensures { result ≡ loads_at_once m }
{
    match m {
        Mode::TerminalCount => true,
        Mode::RateGenerator => false,
    }
}

pub fn trigger_loads(m: Mode) -> bool
    ensures { result ≡ trigger_loads m }
{
    match m {
        Mode::TerminalCount => false,
        Mode::RateGenerator => true,
    }
}

pub fn gate_raises(m: Mode) -> bool
    ensures { result ≡ gate_raises m }
{
    match m {
        Mode::TerminalCount => false,
        Mode::RateGenerator => true,
    }
}

pub fn from_two(m: Mode) -> bool
    ensures { result ≡ from_two m }
{
    match m {
        Mode::TerminalCount => false,
        Mode::RateGenerator => true,
    }
}
