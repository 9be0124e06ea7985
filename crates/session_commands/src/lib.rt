// What a line asks for that was read byte after byte, and whether it has a byte.
#![tactic(auto)]

ghost use Rattle.std.specs.Prelude.{◌≡◌};
ghost use Rattle.session_commands.specs.Command.{minus};
ghost use Rattle.session_commands.specs.Ends.{number_read, command_read, is_begun};

use session_reading::{Number, Reading};

// What a line asks for. The sample is the code's 16 bits.
#[derive(Clone, Copy)]
pub enum Command {
    WriteByte { offset: u8, value: u8 },
    ReadByte { offset: u8 },
    ReadWord,
    EndConversion { sample: u16 },
}

// The 16 bits of the code -n.
fn negative(n: u16) -> u16
    ensures { result ≡ minus n }
{
    0u16.wrapping_sub(n)
}

fn command_of(number: Number, n: u16) -> Option<Command>
    ensures { result ≡ number_read number n }
{
    match number {
        Number::ReadOffset if n <= 99 => Some(Command::ReadByte { offset: n as u8 }),
        Number::Code if n <= 32767 => Some(Command::EndConversion { sample: n }),
        Number::MinusCode if n <= 32768 => Some(Command::EndConversion {
            sample: negative(n),
        }),
        _ => None,
    }
}

// What a line asks for that ends here.
#[tactic(auto, unfolding(crate::specs::Ends::command_read))]
pub fn command_at(reading: Reading) -> Option<Command>
    ensures { result ≡ command_read reading }
{
    match reading {
        Reading::Blank => None,
        Reading::Letter(_) => None,
        Reading::Begun(_) => None,
        Reading::Zero(number) => command_of(number, 0),
        Reading::Digits(number, n) => command_of(number, n),
        Reading::Offset(_) => None,
        Reading::HalfValue(_, _) => None,
        Reading::Whole(offset, value) => Some(Command::WriteByte { offset, value }),
        Reading::Single => Some(Command::ReadWord),
        Reading::Spoiled => None,
    }
}

// Whether the line has a byte.
#[tactic(auto, unfolding(crate::specs::Ends::is_begun))]
pub fn is_begun(reading: Reading) -> bool
    ensures { result ≡ is_begun reading }
{
    !matches!(reading, Reading::Blank)
}
