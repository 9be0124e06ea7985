// Spoils a board's record, so that it is no working board's (specs/Unfit.antt), by the numbers of the table in tests/models/spoils.py. Each
// part of the record has its own numbers, and the others leave it. Each contract is a definition of specs/Spoils.antt.
ghost use Rattle.std.specs.Prelude.{◌≡◌};
ghost use Rattle.cases_board_host.specs.Spoils.{spoiled_fifo, spoiled_converter, spoiled_clocks, spoiled_outputs, spoiled_ports};
ghost use Rattle.cases_board_host.specs.Spoils.{spoiled_calibration, spoiled_registers, spoiled_pins, spoiled_wiring, spoiled_ranges, spoiled};

use super::{spoil_counters, spoil_flags};
use calibration::Calibration;
use converter::channels::Converter;
use fifo::Fifo;
use machine::{Board, Clocks, Pins, Registers, Wiring};
use outputs::{Codes, Load, Outputs};
use ports::Ports;

fn spoil_fifo(f: Fifo, n: u32) -> Fifo
    ensures { result ≡ spoiled_fifo f n }
{
    match n {
        0x05 => Fifo { held: 513, ..f },
        0x06 => Fifo {
            held: 511,
            ovf: 1,
            ..f
        },
        0x21 => Fifo {
            held: 0,
            ovf: 1,
            ..f
        },
        _ => f,
    }
}

fn spoil_channels(c: Converter, n: u32) -> Converter
    ensures { result ≡ spoiled_converter c n }
{
    match n {
        0x07 => Converter { selected: 32, ..c },
        0x08 => Converter { low: 32, ..c },
        0x09 => Converter { high: 32, ..c },
        0x0A => Converter {
            channel: 32,
            converting: 1,
            ..c
        },
        _ => c,
    }
}

fn spoil_clocks(k: Clocks, n: u32) -> Clocks
    ensures { result ≡ spoiled_clocks k n }
{
    let l = machine::put_timer(k, spoil_counters::spoil_timer(k.timer, n));
    match n {
        0x0C => Clocks { hundred: 100, ..l },
        0x0D => Clocks {
            thousand: 1000,
            ..l
        },
        _ => l,
    }
}

fn spoil_outputs(o: Outputs, n: u32) -> Outputs
    ensures { result ≡ spoiled_outputs o n }
{
    match n {
        0x0B => Outputs { busy: 101, ..o },
        0x12 => Outputs {
            codes: Codes {
                out0: 4096,
                ..o.codes
            },
            ..o
        },
        0x13 => Outputs {
            load: Load {
                loaded: 1,
                channel: 4,
                code: 0,
            },
            ..o
        },
        0x14 => Outputs {
            load: Load {
                loaded: 1,
                channel: 0,
                code: 4096,
            },
            ..o
        },
        0x1C => Outputs {
            codes: Codes {
                out3: 4096,
                ..o.codes
            },
            ..o
        },
        _ => o,
    }
}

fn spoil_ports(p: Ports, n: u32) -> Ports
    ensures { result ≡ spoiled_ports p n }
{
    match n {
        0x15 => Ports { control: 0x1B, ..p },
        0x16 => Ports { control: 0xDB, ..p },
        0x22 => Ports { control: 0xBB, ..p },
        0x23 => Ports { control: 0x9F, ..p },
        _ => p,
    }
}

fn spoil_calibration(c: Calibration, n: u32) -> Calibration
    ensures { result ≡ spoiled_calibration c n }
{
    match n {
        0x17 => Calibration { transfer: 99, ..c },
        0x18 => Calibration { address: 128, ..c },
        _ => c,
    }
}

fn spoil_registers(g: Registers, n: u32) -> Registers
    ensures { result ≡ spoiled_registers g n }
{
    match n {
        0x11 => Registers { page: 4, ..g },
        0x1A => Registers { range: 16, ..g },
        _ => g,
    }
}

fn spoil_pins(p: Pins, n: u32) -> Pins
    ensures { result ≡ spoiled_pins p n }
{
    if n == 0x10 { Pins { din: 16, ..p } } else { p }
}

fn spoil_wiring(w: Wiring, n: u32) -> Wiring
    ensures { result ≡ spoiled_wiring w n }
{
    if n == 0x19 {
        Wiring { inputs: 4, ..w }
    } else {
        w
    }
}

// The numbers 05 to 23 put something out of its range.
fn spoil_ranges(b: Board, n: u32) -> Board
    ensures { result ≡ spoiled_ranges b n }
{
    Board {
        fifo: spoil_fifo(b.fifo, n),
        converter: spoil_channels(b.converter, n),
        clocks: spoil_clocks(b.clocks, n),
        outputs: spoil_outputs(b.outputs, n),
        ports: spoil_ports(b.ports, n),
        calibration: spoil_calibration(b.calibration, n),
        registers: spoil_registers(b.registers, n),
        pins: spoil_pins(b.pins, n),
        wiring: spoil_wiring(b.wiring, n),
        ..b
    }
}

// The numbers from 24 on damage a flag.
pub fn spoil_board(b: Board, n: u32) -> Board
    ensures { result ≡ spoiled b n }
{
    if n < 0x24 {
        spoil_ranges(b, n)
    } else {
        spoil_flags::damage_board(b, n)
    }
}
