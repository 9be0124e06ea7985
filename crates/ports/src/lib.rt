// The digital ports (manual, 8.2 and chapter 16; page 1 of the register map): an 82C55 in mode 0. Each function's contract is a
// definition of specs/Ports.antt.
#![tactic(auto)]

ghost use Rattle.std.specs.Prelude.{◌≡◌};
ghost use Rattle.ports.specs.Ports.{line_of, with_line, high_input, low_input, joined, by_line, control_taken, port_control_refused};
ghost use Rattle.ports.specs.Ports.{port_control_written, control_read, latch_written, port_read, pins_set, driven, levels, reset_ports, fresh_ports};
ghost use Rattle.ports.specs.Working.{is_working_ports};

// A port of eight lines.
#[derive(Clone, Copy)]
pub enum Port {
    PortA,
    PortB,
    PortC,
}

// A byte for each port.
#[repr(C)]
#[derive(Clone, Copy)]
pub struct Lines {
    pub a: u8,
    pub b: u8,
    pub c: u8,
}

// The control byte, the output latches, and the levels of the pins.
#[repr(C)]
#[derive(Clone, Copy)]
pub struct Ports {
    pub control: u8,
    pub latches: Lines,
    pub pins: Lines,
}

// ---- a byte for each port

// The byte of a port.
fn line_of(l: Lines, q: Port) -> u8
    ensures { result ≡ line_of l q }
{
    match q {
        Port::PortA => l.a,
        Port::PortB => l.b,
        Port::PortC => l.c,
    }
}

// The byte of one port is v.
fn put_line(l: Lines, q: Port, v: u8) -> Lines
    ensures { result ≡ with_line l q v }
{
    match q {
        Port::PortA => Lines { a: v, ..l },
        Port::PortB => Lines { b: v, ..l },
        Port::PortC => Lines { c: v, ..l },
    }
}

// All bytes 0.
const NO_LINES: Lines = Lines { a: 0, b: 0, c: 0 };

// ---- the directions: 1 is input

// The direction of a port's lines 7-4: DIRA, DIRB, DIRCH.
fn high_input(control: u8, q: Port) -> bool
    ensures { result ≡ high_input control q }
{
    match q {
        Port::PortA => control / 16 % 2 == 1,
        Port::PortB => control / 2 % 2 == 1,
        Port::PortC => control / 8 % 2 == 1,
    }
}

// The direction of a port's lines 3-0: DIRA, DIRB, DIRCL.
fn low_input(control: u8, q: Port) -> bool
    ensures { result ≡ low_input control q }
{
    match q {
        Port::PortA => control / 16 % 2 == 1,
        Port::PortB => control / 2 % 2 == 1,
        Port::PortC => control % 2 == 1,
    }
}

// Lines 7-4 of one byte, and lines 3-0 of another.
fn join(high: u8, low: u8) -> u8
    ensures { result ≡ joined high low }
{
    high / 16 * 16 + low % 16
}

// A byte whose lines come from `input` where the port's lines are inputs, and from `output` where they are outputs.
fn by_line(control: u8, q: Port, input: u8, output: u8) -> u8
    ensures { result ≡ by_line control q input output }
{
    let high = if high_input(control, q) {
        input
    } else {
        output
    };
    let low = if low_input(control, q) { input } else { output };
    join(high, low)
}

// ---- the control byte at 15

// Whether a control byte is accepted: bit 7 is set, and the mode bits are clear.
fn is_taken(v: u8) -> bool
    ensures { result ≡ control_taken v }
{
    (v / 128 % 2 == 1) & !(v / 64 % 2 == 1) & !(v / 32 % 2 == 1) & !(v / 4 % 2 == 1)
}

// Whether a control byte is refused, number 7.
pub fn control_refused(v: u8) -> bool
    ensures { result ≡ port_control_refused v }
{
    !is_taken(v)
}

// A write of 15: an accepted byte clears the output latches; a refused one changes nothing.
pub fn write_control(p: Ports, v: u8) -> Ports
    ensures { result ≡ port_control_written p v }
{
    if control_refused(v) {
        p
    } else {
        Ports {
            control: v,
            latches: NO_LINES,
            ..p
        }
    }
}

// A read of 15.
pub fn read_control(p: Ports) -> u8
    ensures { result ≡ control_read p }
{
    p.control
}

// ---- the ports at 12, 13, 14

// A write of a port: its latch takes the byte, also where the port is an input.
pub fn write(p: Ports, q: Port, v: u8) -> Ports
    ensures { result ≡ latch_written p q v }
{
    Ports {
        latches: put_line(p.latches, q, v),
        ..p
    }
}

// A read of a port: output lines read the latch, input lines the pins.
pub fn read(p: Ports, q: Port) -> u8
    ensures { result ≡ port_read p q }
{
    by_line(p.control, q, line_of(p.pins, q), line_of(p.latches, q))
}

// The host sets the levels of a port's pins.
pub fn set_pins(p: Ports, q: Port, v: u8) -> Ports
    ensures { result ≡ pins_set p q v }
{
    Ports {
        pins: put_line(p.pins, q, v),
        ..p
    }
}

// Which lines of a port the board drives.
pub fn driven_lines(p: Ports, q: Port) -> u8
    ensures { result ≡ driven p q }
{
    by_line(p.control, q, 0, 255)
}

// The levels of the lines that the board drives; 0 at the others.
pub fn driven_levels(p: Ports, q: Port) -> u8
    ensures { result ≡ levels p q }
{
    by_line(p.control, q, 0, line_of(p.latches, q))
}

// ---- reset, and a fresh board's ports

// All ports are inputs and the latches are 0; the pins stay.
pub fn reset(p: Ports) -> Ports
    ensures { result ≡ reset_ports p }
{
    Ports {
        pins: p.pins,
        ..fresh()
    }
}

// A fresh board's ports.
pub fn fresh() -> Ports
    ensures { result ≡ fresh_ports }
{
    Ports {
        control: 0x9B,
        latches: NO_LINES,
        pins: NO_LINES,
    }
}

// Whether these are a working board's ports.
pub fn is_working(p: Ports) -> bool
    ensures { result ≡ is_working_ports p }
{
    is_taken(p.control)
}
