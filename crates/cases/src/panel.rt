// Jumpers and ports by number. Any number is of some jumpers and some port, so neither is a conversion that can fail.
ghost use Rattle.std.specs.Prelude.{◌≡◌};
ghost use Rattle.machine_record.specs.Fresh.{jumpers_of};
ghost use Rattle.cases.specs.Panel.{port_of};

use machine::Jumpers;
use ports::Port;

// The jumpers of a number: 0 to 3 are A to D.
pub fn jumpers_of(n: u32) -> Jumpers
    ensures { result ≡ jumpers_of n }
{
    match n {
        0 => Jumpers::A,
        1 => Jumpers::B,
        2 => Jumpers::C,
        _ => Jumpers::D,
    }
}

// The port of a number: 0 to 2 are A to C.
pub fn port_of(n: u32) -> Port
    ensures { result ≡ port_of n }
{
    match n {
        0 => Port::PortA,
        1 => Port::PortB,
        _ => Port::PortC,
    }
}
