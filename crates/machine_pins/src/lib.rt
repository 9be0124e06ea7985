// The DIN pins: specs/Pins.antt, where the Latch pin and the port pins are defined too.
#![tactic(auto)]

ghost use Rattle.std.specs.Prelude.{◌≡◌, ◌<◌};
ghost use Rattle.machine_pins.specs.Pins.{fell_from, din_moved, din0_clocked, triggers_stopped, din3_triggered, din_set};

use machine_record::Board;
use timer::Select;

// Whether a line of DIN3-0 goes from high to low.
fn has_fallen(was: u8, is: u8, line: u8) -> bool
    requires { line < 8 }
    ensures { result ≡ fell_from was is line }
{
    ((was >> line) % 2 == 1) & !((is >> line) % 2 == 1)
}

#[tactic(auto, unfolding(crate::specs::Pins::din_moved))]
fn move_din(b: Board, din: u8) -> Board
    ensures { result ≡ din_moved b din }
{
    let t = timer::move_gates(
        b.clocks.timer,
        machine_clock::gates_of(b),
        machine_clock::gates_at(b.registers.counting, din),
    );
    let mut c = b;
    c.pins.din = din;
    c.clocks = machine_clock::put_timer(b.clocks, t);
    c
}

#[tactic(auto, unfolding(crate::specs::Pins::din0_clocked))]
fn clock_din_0(b: Board, fallen: bool) -> Board
    ensures { result ≡ din0_clocked b fallen }
{
    let pulse = (b.registers.counting / 2 % 2 == 1) & fallen;
    machine_clock::move_timer(
        b,
        timer::clock_if(
            b.clocks.timer,
            Select::Counter0,
            machine_clock::gates_of(b),
            pulse,
        ),
    )
}

fn are_triggers_stopped(b: Board) -> bool
    ensures { result ≡ triggers_stopped b }
{
    (b.registers.counting / 1 % 2 == 1) & !(b.pins.din / 4 % 2 == 1)
}

#[tactic(auto, unfolding(crate::specs::Pins::din3_triggered))]
fn trigger_din_3(b: Board, fallen: bool) -> Board
    ensures { result ≡ din3_triggered b fallen }
{
    let stopped = are_triggers_stopped(b);
    let mut c = b;
    c.converter = converter::channels::external_trigger(
        b.converter,
        b.requests.clksel == 1,
        fallen,
        stopped,
    );
    c
}

// DIN3-0 take new levels: the gates first, then counter 0's clock, then the trigger.
#[tactic(auto, unfolding(crate::specs::Pins::din_set))]
pub fn set_din(b: Board, din: u8) -> Board
    ensures { result ≡ din_set b din }
{
    let was = b.pins.din;
    trigger_din_3(
        clock_din_0(move_din(b, din), has_fallen(was, din, 0)),
        has_fallen(was, din, 3),
    )
}
