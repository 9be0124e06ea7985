// What an offset names: specs/Place.antt.
ghost use Rattle.std.specs.Prelude.{◌≡◌};
ghost use Rattle.bus.specs.Place.{fixed_place, timer_place, port_place, auxiliary_place, calibration_place, paged_place, place_of};

use super::Place;
use ports::Port;
use timer::Select;

fn fixed_place(n: u32) -> Place
    ensures { result ≡ fixed_place n }
{
    match n {
        0 => Place::Base0,
        1 => Place::Base1,
        2 => Place::Base2,
        3 => Place::Base3,
        4 => Place::Base4,
        5 => Place::Base5,
        6 => Place::Base6,
        7 => Place::Base7,
        8 => Place::Base8,
        9 => Place::Base9,
        10 => Place::Base10,
        _ => Place::Base11,
    }
}

fn timer_place(n: u32) -> Place
    ensures { result ≡ timer_place n }
{
    match n {
        12 => Place::Count(Select::Counter0),
        13 => Place::Count(Select::Counter1),
        14 => Place::Count(Select::Counter2),
        _ => Place::ControlWord,
    }
}

fn port_place(n: u32) -> Place
    ensures { result ≡ port_place n }
{
    match n {
        12 => Place::PortData(Port::PortA),
        13 => Place::PortData(Port::PortB),
        14 => Place::PortData(Port::PortC),
        _ => Place::PortControl,
    }
}

fn auxiliary_place(n: u32) -> Place
    ensures { result ≡ auxiliary_place n }
{
    if n == 15 {
        Place::Auxiliary
    } else {
        Place::Reserved
    }
}

fn calibration_place(n: u32) -> Place
    ensures { result ≡ calibration_place n }
{
    match n {
        12 => Place::CalData,
        13 => Place::CalAddress,
        14 => Place::CalBase14,
        _ => Place::CalBase15,
    }
}

fn paged_place(page: u8, n: u32) -> Place
    ensures { result ≡ paged_place page n }
{
    match page {
        0 => timer_place(n),
        1 => port_place(n),
        2 => auxiliary_place(n),
        _ => calibration_place(n),
    }
}

// What offset n names on a page.
pub fn find(page: u8, n: u32) -> Place
    ensures { result ≡ place_of page n }
{
    if n <= 11 {
        fixed_place(n)
    } else if n <= 15 {
        paged_place(page, n)
    } else {
        Place::Outside
    }
}
