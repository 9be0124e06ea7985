// Signed codes and the 16-bit samples that stand for them (manual, Base + 0 and 1).
ghost use Rattle.std.specs.Prelude.{◌≡◌};
ghost use Rattle.converter.specs.Codes.{sample_of, code_of};

// The 16 bits of a signed code.
pub fn sample(code: i16) -> u16
    ensures { result ≡ sample_of code }
{
    code.cast_unsigned()
}

// The signed code of 16 bits.
pub fn code(sample: u16) -> i16
    ensures { result ≡ code_of sample }
{
    sample.cast_signed()
}
