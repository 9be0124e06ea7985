// Many CLK pulses at one counter of the 82C54 at once (manual, chapter 19: the data sheet), modes 0 and 2: how many move its count alone, the
// counter after so many, and the pulses of its period in mode 2. As `counter_one::pulse_working` does, the mode is read from bit 2 of the control bits.
#![tactic(auto)]

ghost use Rattle.std.specs.Prelude.{◌≡◌};
ghost use Rattle.counter_modes.specs.Bits.{rate};
ghost use Rattle.counter_modes.specs.Control.{setup_of};
ghost use Rattle.counter_one.specs.Working.{WorkingCounter};
ghost use Rattle.counter_pulses.specs.Pulses.{counts, quiet_pulses, leapt_counter};
ghost use Rattle.counter_pulses.specs.Periods.{Lap, Period};
ghost use Rattle.counter_pulses.specs.Faces.{settled, face_of, pace_of, faced, face_counted};

use counter_one::Counter;

// What pulses change of a counter that has no trigger and no count to load.
#[derive(Clone, Copy)]
pub struct Face {
    pub element: u16,
    pub out: u8,
}

// What they go by: whether it counts, whether in mode 2, and the count that mode 2 loads again.
#[derive(Clone, Copy)]
pub struct Pace {
    pub counts: bool,
    pub rate: bool,
    pub register: u16,
}

// Whether bit 2 of the control bits is set, as in mode 2.
#[inline(always)]
fn is_rate(k: Counter) -> bool
    ensures { result ≡ rate k.control }
{
    k.control / 4 % 2 == 1
}

// Whether a pulse that loads nothing counts.
#[tactic(auto, using(crate::proofs::Parts::counts_so))]
#[inline(always)]
fn does_count(k: Counter, gate: bool) -> bool
    requires { WorkingCounter k }
    ensures { result ≡ counts (setup_of k.control) k gate }
{
    let stopped = (k.bus.halfwritten == 1) & !is_rate(k);
    (k.control != 0) & ((k.count.loaded == 1) & (gate & !stopped))
}

// The pulses in which the count of a counter alone moves; 4,294,967,295 where it stands.
pub fn quiet_pulses(k: Counter, gate: bool) -> u32
    requires { WorkingCounter k }
    ensures { result ≡ quiet_pulses k gate }
{
    if k.control == 0 {
        u32::MAX
    } else if !is_settled(k) {
        0
    } else if !does_count(k, gate) {
        u32::MAX
    } else {
        let left = k.count.element.wrapping_sub(1);
        if !is_rate(k) {
            left as u32
        } else if (k.count.out != 1) | (left == 0) {
            0
        } else {
            (left - 1) as u32
        }
    }
}

// A counter after p of them.
#[tactic(auto, using(crate::proofs::Parts::lowers), unfolding(crate::specs::Pulses::leapt_counter))]
pub fn leap_counter(k: Counter, gate: bool, p: u32) -> Counter
    requires { WorkingCounter k }
    ensures { result ≡ leapt_counter p k gate }
{
    if does_count(k, gate) {
        let mut d = k;
        d.count.element = k.count.element.wrapping_sub((p % 65536) as u16);
        d
    } else {
        k
    }
}

// The pulses of a period, or 0 where the count is not within it.
fn lap(register: u16, element: u16) -> u32
    ensures { Lap register element result }
{
    let e = element.wrapping_sub(1);
    let r = register.wrapping_sub(1);
    if (0 < e) & (e <= r) { r as u32 + 1 } else { 0 }
}

// The pulses of the period of a counter that counts in mode 2, or 0.
pub fn period_of(k: Counter, gate: bool) -> u32
    requires { WorkingCounter k }
    ensures { Period k gate result }
{
    if is_rate(k) & is_settled(k) & (k.count.out == 1) & (k.count.loaded == 1) & gate {
        lap(k.count.register, k.count.element)
    } else {
        0
    }
}

// Whether a counter has no trigger and no count to load.
#[inline(always)]
pub fn is_settled(k: Counter) -> bool
    ensures { result ≡ settled k }
{
    !((k.trigger == 1) | (k.count.waiting == 1))
}

// The face of a counter.
#[inline(always)]
pub fn face_of(k: Counter) -> Face
    ensures { result ≡ face_of k }
{
    Face {
        element: k.count.element,
        out: k.count.out,
    }
}

// Its pace.
#[tactic(auto, unfolding(crate::specs::Faces::pace_of))]
#[inline(always)]
pub fn pace_of(k: Counter, gate: bool) -> Pace
    requires { WorkingCounter k }
    ensures { result ≡ pace_of k gate }
{
    Pace {
        counts: does_count(k, gate),
        rate: is_rate(k),
        register: k.count.register,
    }
}

// A counter with another face.
#[inline(always)]
pub fn put_face(k: Counter, f: Face) -> Counter
    ensures { result ≡ faced k f }
{
    let mut d = k;
    d.count.element = f.element;
    d.count.out = f.out;
    d
}

// A face after a pulse.
#[tactic(auto, unfolding(crate::specs::Faces::face_counted))]
#[inline(always)]
pub fn count_on(p: Pace, f: Face) -> Face
    ensures { result ≡ face_counted p f }
{
    if !p.counts {
        f
    } else if p.rate {
        if f.element == 1 {
            Face {
                element: p.register,
                out: 1,
            }
        } else {
            let v = std::num::wrapping_sub_u16(f.element, 1);
            let out = (v != 1) as u8;
            Face { element: v, out }
        }
    } else {
        let v = std::num::wrapping_sub_u16(f.element, 1);
        let out = ((f.out == 1) | (v == 0)) as u8;
        Face { element: v, out }
    }
}
