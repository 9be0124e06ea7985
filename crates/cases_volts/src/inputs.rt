// Cases of A/D codes.
use crate::show::Volts;
use std::io;
use volts::Voltage;

// The end of a line: the volts or the refusal.
fn show(rt: &impl Print, code: i16, range: u8) -> io::Result<()> {
    match volts::volts(code, range) {
        Voltage::Volts(x) => println!(rt; "{}", Volts(x)),
        Voltage::Refused(number) => println!(rt; "refused {number}"),
    }
}

fn volts_case(rt: &impl Print, name: &str, code: i16, range: u8) -> io::Result<()> {
    print!(rt; "{name}: ")?;
    show(rt, code, range)
}

// The rows of both tables of chapter 9.4, at a range code and the voltages that it selects.
fn table(rt: &impl Print, voltages: &str, range: u8) -> io::Result<()> {
    for code in [-32768, -32767, -1, 0, 1, 32767] {
        print!(rt; "9.4 code {range}, {voltages}, {code}: ")?;
        show(rt, code, range)?;
    }
    Ok(())
}

// The worked examples of chapter 9.3. Hex 4562 is 17762; hex 4560, which the manual prints beside it, is 17760.
pub fn examples(rt: &impl Print) -> io::Result<()> {
    volts_case(rt, "9.3 +-5 V, 17762 is +2.7103 V", 17762, 0)?;
    volts_case(rt, "9.3 +-5 V, -15008 is -2.2900 V", -15008, 0)?;
    volts_case(rt, "9.3 0-10 V, 17762 is +7.7103 V", 17762, 12)?;
    volts_case(rt, "9.3 +-5 V, hex 4560", 17760, 0)
}

// The table of chapter 9.4 at every bipolar range of 9.2.
pub fn bipolar_ranges(rt: &impl Print) -> io::Result<()> {
    table(rt, "+-5 V", 0)?;
    table(rt, "+-2.5 V", 1)?;
    table(rt, "+-1.25 V", 2)?;
    table(rt, "+-0.625 V", 3)?;
    table(rt, "+-10 V", 8)?;
    table(rt, "+-5 V", 9)?;
    table(rt, "+-2.5 V", 10)?;
    table(rt, "+-1.25 V", 11)
}

// The table of chapter 9.4 at every unipolar range of 9.2.
pub fn unipolar_ranges(rt: &impl Print) -> io::Result<()> {
    table(rt, "0-10 V", 12)?;
    table(rt, "0-5 V", 13)?;
    table(rt, "0-2.5 V", 14)?;
    table(rt, "0-1.25 V", 15)
}

// Range codes without volts: 4 to 7 are invalid settings, above 15 there is none.
pub fn refusals(rt: &impl Print) -> io::Result<()> {
    for range in [4, 5, 6, 7, 16, 255] {
        print!(rt; "range code {range}: ")?;
        show(rt, 0, range)?;
    }
    Ok(())
}
