// Many ticks in one call: specs/Advance.antt says what they come to, one event after another; crates/machine_strides takes them at once where it can.
#![tactic(auto)]

ghost use Rattle.std.specs.Prelude.{◌-◌, ◌≡◌};
ghost use Rattle.machine_record.specs.Working.{WorkingMachine};
ghost use Rattle.board_advance.specs.Advance.{advanced_of};
ghost use Rattle.board_advance.specs.Strided.{heeds0, heeds2, stride_at, begins_in};

use board_events::Answer;
use machine::Board;
use machine_strides::{Setting, Stride};

// The answer, and how many ticks were done.
#[derive(Clone, Copy)]
pub struct Progress {
    pub answer: Answer,
    pub done: u32,
}

// The record after some ticks, and what came of them.
#[derive(Clone, Copy)]
pub struct Advanced {
    pub board: Board,
    pub progress: Progress,
}

// Whether a falling OUT0 sets TINT.
fn heeds_0(b: Board) -> bool
    ensures { result ≡ heeds0 b }
{
    (b.requests.tinte == 1) & (b.requests.flags.tint != 1)
}

// Whether a falling OUT2 begins a conversion.
fn heeds_2(b: Board) -> bool
    ensures { result ≡ heeds2 b }
{
    (b.converter.clken == 1) & (b.requests.clksel == 1) & (b.converter.converting != 1)
}

// DACBUSY after some ticks.
fn busy_after(busy: u8, ticks: u32) -> u8
    ensures { result ≡ busy - ticks }
{
    (busy as u32).saturating_sub(ticks) as u8
}

// The clocks of a working board after ticks, as far as the first with which the host has something to do.
fn stride(b: Board, ticks: u32) -> Stride
    requires { WorkingMachine b }
    ensures { result ≡ stride_at b ticks }
{
    let by = Setting {
        counting: b.registers.counting,
        gates: machine::gates_at(b.registers.counting, b.pins.din),
    };
    machine_strides::run(b.clocks, by, heeds_0(b), heeds_2(b), ticks)
}

// Ticks, `ticks` at the utmost, as far as the first in which a conversion has begun or a request flag has gone up. The memories stay as they are.
pub fn advance(board: Board, memory: &mut [u16], eeprom: &mut [u8], ticks: u32) -> Advanced
    ensures value { result ≡ advanced_of board memory.old eeprom.old ticks }
    ensures memory_unchanged { memory.new ≡ memory.old }
    ensures eeprom_unchanged { eeprom.new ≡ eeprom.old }
{
    let mut c = board;
    let progress = if let Err(refusal) = board_refusal::check(c, memory, eeprom) {
        Progress {
            answer: Answer::Refused(refusal.number),
            done: 0,
        }
    } else {
        let s = stride(c, ticks);
        let l = s.clocks;
        c.clocks = l;
        let busy = busy_after(c.outputs.busy, s.done);
        c.outputs.busy = busy;
        c.requests = requests::ask_timer(c.requests, s.fell0);
        let triggers = (c.converter.clken == 1) & (c.requests.clksel == 1) & s.fell2;
        c.converter = converter::channels::trigger(c.converter, triggers);
        Progress {
            answer: Answer::Done,
            done: s.done,
        }
    };
    Advanced { board: c, progress }
}

// After how many ticks, `most` at the utmost, the next one comes with which the host has something to do: what `advance` would have done.
pub fn ticks_until(board: Board, memory: &[u16], eeprom: &[u8], most: u32) -> u32
    ensures { result ≡ (advanced_of board memory.now eeprom.now most).progress.done }
{
    if board_refusal::check(board, memory, eeprom).is_err() {
        return 0;
    }
    if !(heeds_0(board) | heeds_2(board)) {
        return most;
    }
    let s = stride(board, most);
    s.done
}

// Whether a conversion begins in the ticks that `advance` would do of a working board. One tick is done by itself, which takes less than the look ahead of
// many.
pub fn begins_in(b: Board, ticks: u32) -> bool
    requires { WorkingMachine b }
    ensures { result ≡ begins_in b ticks }
{
    if !heeds_2(b) {
        return false;
    }
    if ticks == 1 {
        let g = machine::gates_at(b.registers.counting, b.pins.din);
        let l = machine_tick::tick_clocks(b.clocks, b.registers.counting, g);
        return timer::has_fallen(
            b.clocks.timer.counter2.count.out == 1,
            l.timer.counter2.count.out == 1,
        );
    }
    let s = stride(b, ticks);
    s.fell2
}
