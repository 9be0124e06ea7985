// The bytes that are read of several parts of the record, at 4 and 8: specs/Bytes.antt.
ghost use Rattle.std.specs.Prelude.{◌≡◌};
ghost use Rattle.bus.specs.Bytes.{input_bits, ad_bits};

use calibration::Calibration;
use converter::channels::Converter;
use outputs::Outputs;

// 4: DACBUSY, CALBUSY and DIN3-0.
pub fn input_bits(o: Outputs, k: Calibration, din: u8) -> u8
    ensures { result ≡ input_bits o k din }
{
    base::weight(outputs::is_busy(o), 128) + base::weight(calibration::is_busy(k), 64) + din % 16
}

// 8: STS, S/D1 and S/D0, the selected channel.
pub fn ad_bits(c: Converter, inputs: u8) -> u8
    ensures { result ≡ ad_bits c inputs }
{
    converter::channels::status_bits(c) + machine::single_ended(inputs)
}
