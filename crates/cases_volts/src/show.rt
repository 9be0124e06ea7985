// How the answers of a case are shown: exact decimals, numbers, refusals.
use std::fmt;

// The digits after the point, as many as there are: the number stands for so many times 10 ^ -18.
#[derive(Clone, Copy)]
struct Fraction(u64);

impl fmt::Display for Fraction {
    fn fmt<W: fmt::Write>(&self, f: &mut fmt::Formatter<W>) -> fmt::Result {
        let mut rest = self.0 % 1000000000000000000;
        if rest != 0 {
            f.write_str(".")?;
        }
        for _ in 0..18 {
            if rest == 0 {
                break;
            }
            write!(f, "{}", rest / 100000000000000000)?;
            rest = rest % 100000000000000000 * 10;
        }
        Ok(())
    }
}

// So many times 2 ^ -18: a fraction over 2 ^ 18 is 5 ^ 18 times as much over 10 ^ 18.
#[derive(Clone, Copy)]
struct OverTwoTo18(u64);

impl fmt::Display for OverTwoTo18 {
    fn fmt<W: fmt::Write>(&self, f: &mut fmt::Formatter<W>) -> fmt::Result {
        let fraction = Fraction(self.0 % 262144 * 3814697265625);
        write!(f, "{}{fraction}", self.0 / 262144)
    }
}

// A number that is not negative. What is no whole number over 2 ^ 18 below 2 ^ 46 is shown as inexact.
#[derive(Clone, Copy)]
struct Magnitude(f64);

impl fmt::Display for Magnitude {
    fn fmt<W: fmt::Write>(&self, f: &mut fmt::Formatter<W>) -> fmt::Result {
        let n = self.0 * 262144.0;
        if n > -1.0 && n < 18446744073709551616.0 {
            let whole = std::num::truncating_f64_to_u64(n);
            write!(f, "{}", OverTwoTo18(whole))?;
            if std::num::nearest_u64_to_f64(whole) != n {
                f.write_str(" inexact")?;
            }
        }
        Ok(())
    }
}

// Volts as an exact decimal; of -0.0 the sign is shown.
#[derive(Clone, Copy)]
pub struct Volts(pub f64);

impl fmt::Display for Volts {
    fn fmt<W: fmt::Write>(&self, f: &mut fmt::Formatter<W>) -> fmt::Result {
        let volts = self.0;
        if (volts < 0.0) | (1.0 / volts < 0.0) {
            write!(f, "-{} V", Magnitude(-volts))
        } else {
            write!(f, "{} V", Magnitude(volts))
        }
    }
}

// The plain number of a code: the code, or 65536 and the number of its refusal.
#[derive(Clone, Copy)]
pub struct Code(pub u32);

impl fmt::Display for Code {
    fn fmt<W: fmt::Write>(&self, f: &mut fmt::Formatter<W>) -> fmt::Result {
        match self.0.checked_sub(65536) {
            Some(number) => write!(f, "refused {number}"),
            None => write!(f, "{}", self.0),
        }
    }
}

// The plain number of two bytes: the LSB and 256 times the MSB, or 65536 and the number of the refusal.
#[derive(Clone, Copy)]
pub struct Bytes(pub u32);

impl fmt::Display for Bytes {
    fn fmt<W: fmt::Write>(&self, f: &mut fmt::Formatter<W>) -> fmt::Result {
        match self.0.checked_sub(65536) {
            Some(number) => write!(f, "refused {number}"),
            None => write!(f, "{} {}", self.0 % 256, self.0 / 256),
        }
    }
}
