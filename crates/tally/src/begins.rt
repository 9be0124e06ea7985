// Whether an event begins a conversion, of the board before it: board_laws/specs/Begins.antt.
ghost use Rattle.std.specs.Prelude.{◌≡◌};
ghost use Rattle.bus.specs.Place.{place_of};
ghost use Rattle.converter.specs.Begins.{software_starts};
ghost use Rattle.converter.specs.Channels.{end_starts};
ghost use Rattle.board_laws.specs.Begins.{timer_begins, written_begins, write_begins, din_begins};

use base::Refusal;
use bus::Place;
use machine::Board;
use timer::Timer;

// A write of 0 does.
fn by_software(b: Board) -> bool
    ensures { result ≡ software_starts b.converter }
{
    (b.converter.clken != 1) & (b.converter.converting != 1)
}

// The timer's going to t does: OUT2 falls, which is a trigger.
fn by_timer(b: Board, t: Timer) -> bool
    ensures { result ≡ timer_begins b t }
{
    let fell = timer::has_fallen(
        b.clocks.timer.counter2.count.out == 1,
        t.counter2.count.out == 1,
    );
    ((b.converter.clken == 1) & (b.requests.clksel == 1) & fell) & (b.converter.converting != 1)
}

// A write of page 0 does, by what it makes of the timer; a refused one does not.
fn by_written(b: Board, w: Result<Timer, Refusal>) -> bool
    ensures { result ≡ written_begins b w }
{
    match w {
        Ok(t) => by_timer(b, t),
        Err(_) => false,
    }
}

// A byte written at an offset does: 0, and the timer's places.
pub fn by_write(b: Board, offset: u32, value: u8) -> bool
    ensures { result ≡ write_begins b (place_of b.registers.page offset) value }
{
    let p = bus::map::find(b.registers.page, offset);
    match p {
        Place::Base0 => by_software(b),
        Place::Base1 => false,
        Place::Base2 => false,
        Place::Base3 => false,
        Place::Base4 => false,
        Place::Base5 => false,
        Place::Base6 => false,
        Place::Base7 => false,
        Place::Base8 => false,
        Place::Base9 => false,
        Place::Base10 => false,
        Place::Base11 => false,
        Place::Count(s) => {
            let g = machine::gates_of(b);
            by_written(b, timer::accesses::write_count(b.clocks.timer, s, value, g))
        }
        Place::ControlWord => {
            let g = machine::gates_of(b);
            by_written(b, timer::accesses::write_control(b.clocks.timer, value, g))
        }
        Place::PortData(_) => false,
        Place::PortControl => false,
        Place::Reserved => false,
        Place::Auxiliary => false,
        Place::CalData => false,
        Place::CalAddress => false,
        Place::CalBase14 => false,
        Place::CalBase15 => false,
        Place::Outside => false,
    }
}

// DIN3-0 take these levels: a falling DIN3 does, where DIN2 as it then is does not stop it.
pub fn by_din(b: Board, din: u8) -> bool
    ensures { result ≡ din_begins b din }
{
    let fell = (b.pins.din / 8 % 2 == 1) & !(din / 8 % 2 == 1);
    let stopped = (b.registers.counting / 1 % 2 == 1) & !(din / 4 % 2 == 1);
    ((b.converter.clken == 1) & (b.requests.clksel != 1) & fell & !stopped)
        & (b.converter.converting != 1)
}

// An end does where its scan goes on.
pub fn by_end(b: Board) -> bool
    ensures { result ≡ end_starts b.converter }
{
    (b.converter.scanen == 1) & (b.converter.channel != b.converter.high)
}
