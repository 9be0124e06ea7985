// The control word: specs/Control.antt.
ghost use Rattle.std.specs.Prelude.{◌≡◌};
ghost use Rattle.counter_modes.specs.Control.{format_of, mode_chosen, command, setup_of, word_refused};

use super::{ControlCommand, Format, Mode};

fn format_of(rw: u8) -> Format
    ensures { result ≡ format_of rw }
{
    match rw {
        1 => Format::LeastByte,
        2 => Format::MostByte,
        _ => Format::TwoBytes,
    }
}

fn choose_mode(f: Format, m: u8) -> ControlCommand
    ensures { result ≡ mode_chosen f m }
{
    if m == 0 {
        ControlCommand::Program(f, Mode::TerminalCount)
    } else if m % 4 == 2 {
        ControlCommand::Program(f, Mode::RateGenerator)
    } else {
        ControlCommand::NotModelled
    }
}

// What a control word asks for, SC apart.
#[tactic(auto, unfolding(crate::specs::Control::command))]
pub fn command_of(word: u8) -> ControlCommand
    ensures { result ≡ command word }
{
    if word / 16 % 4 == 0 {
        ControlCommand::LatchCount
    } else if word % 2 == 1 {
        ControlCommand::NotModelled
    } else {
        choose_mode(format_of(word / 16 % 4), word / 2 % 8)
    }
}

// What a counter's six control bits set up: `None` before the first control word that programs it.
#[tactic(auto, unfolding(crate::specs::Control::setup_of))]
pub fn setup_of(control: u8) -> Option<(Format, Mode)>
    ensures { result ≡ setup_of control }
{
    match command_of(control) {
        ControlCommand::Program(f, m) => Some((f, m)),
        ControlCommand::LatchCount | ControlCommand::NotModelled => None,
    }
}

// Whether a control word, whatever counter it selects, is refused.
#[tactic(auto, unfolding(crate::specs::Control::word_refused))]
pub fn refuses_word(word: u8) -> bool
    ensures { result ≡ word_refused word }
{
    match command_of(word) {
        ControlCommand::LatchCount => false,
        ControlCommand::Program(_, _) => false,
        ControlCommand::NotModelled => true,
    }
}
