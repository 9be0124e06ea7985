// What a host has to act on: specs/Due.antt.
#![tactic(auto)]

ghost use Rattle.std.specs.Prelude.{◌≡◌, ◌≤◌};
ghost use Rattle.requests.specs.Requests.{asking};
ghost use Rattle.machine_due.specs.Due.{signs, outputs_differ, port_differs, ports_differ, channel_in_progress, transfer_that_runs, due_of};

use calibration::Calibration;
use converter::channels::Converter;
use machine_record::Board;
use outputs::Codes;
use ports::{Port, Ports};

// The interrupt line: whether one of the three request flags is set.
pub fn irq(board: Board) -> bool
    ensures { result ≡ asking board.requests.flags }
{
    requests::is_asking(board.requests.flags)
}

// What stands now, and whether DOUT differs.
fn signs_of(before: Board, after: Board) -> u8
    ensures { (result ≡ signs before after) × (result ≤ 15) }
{
    base::weight(irq(after), 1)
        + base::weight(after.converter.converting == 1, 2)
        + base::weight(calibration::is_busy(after.calibration), 4)
        + base::weight(
            machine_record::dout_pins(before) != machine_record::dout_pins(after),
            8,
        )
}

// Which outputs put out another code.
fn outputs_differ(before: Codes, after: Codes) -> u8
    ensures { (result ≡ outputs_differ before after) × (result ≤ 240) }
{
    base::weight(before.out0 != after.out0, 16)
        + base::weight(before.out1 != after.out1, 32)
        + base::weight(before.out2 != after.out2, 64)
        + base::weight(before.out3 != after.out3, 128)
}

// Whether the board drives other lines of a port, or other levels.
fn port_differs(before: Ports, after: Ports, q: Port) -> bool
    ensures { result ≡ port_differs before after q }
{
    (ports::driven_lines(before, q) != ports::driven_lines(after, q))
        | (ports::driven_levels(before, q) != ports::driven_levels(after, q))
}

fn ports_differ(before: Ports, after: Ports) -> u8
    ensures { result ≡ ports_differ before after }
{
    base::weight(port_differs(before, after, Port::PortA), 1)
        + base::weight(port_differs(before, after, Port::PortB), 2)
        + base::weight(port_differs(before, after, Port::PortC), 4)
}

// The channel of the conversion in progress, or 0.
fn channel_in_progress(c: Converter) -> u8
    ensures { result ≡ channel_in_progress c }
{
    if c.converting == 1 { c.channel } else { 0 }
}

// The transfer that runs, or 0.
fn transfer_that_runs(c: Calibration) -> u8
    ensures { result ≡ transfer_that_runs c }
{
    if calibration::is_busy(c) {
        c.transfer
    } else {
        0
    }
}

// What the host has to act on, of a board before and after what happened to it, as bits of one number.
#[tactic(auto, unfolding(crate::specs::Due::due_of))]
pub fn due(before: Board, after: Board) -> u32
    ensures { result ≡ due_of before after }
{
    let first = signs_of(before, after) + outputs_differ(before.outputs.codes, after.outputs.codes);
    let second = ports_differ(before.ports, after.ports);
    let channel = channel_in_progress(after.converter);
    let transfer = transfer_that_runs(after.calibration);
    base::join_words(
        base::join_bytes(first, second),
        base::join_bytes(channel, transfer),
    )
}
