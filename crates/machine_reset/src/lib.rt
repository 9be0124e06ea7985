// Resets by Base+8: specs/Reset.antt, where INTRST and the page are defined too.
#![tactic(auto)]

ghost use Rattle.std.specs.Prelude.{◌≡◌};
ghost use Rattle.machine_reset.specs.Reset.{outputs_reset, board_reset, is_reset};

use machine_record::Board;
use outputs::Outputs;

fn reset_outputs(o: Outputs, analog: bool, zeroscale: bool) -> Outputs
    ensures { result ≡ outputs_reset o analog zeroscale }
{
    if analog {
        outputs::reset_a(zeroscale)
    } else {
        outputs::reset_d(o)
    }
}

// RESETA (`analog`) or RESETD. The sample memory is the caller's to empty.
#[tactic(auto, unfolding(crate::specs::Reset::board_reset))]
pub fn reset_board(b: Board, analog: bool) -> Board
    ensures { result ≡ board_reset b analog }
{
    let t = timer::move_gates(
        b.clocks.timer,
        machine_clock::gates_of(b),
        machine_clock::gates_at(0, b.pins.din),
    );
    let mut c = b;
    c.converter = converter::channels::fresh_converter();
    c.requests = requests::fresh_requests();
    c.registers = machine_record::fresh_registers();
    c.outputs = reset_outputs(b.outputs, analog, b.wiring.zeroscale == 1);
    c.clocks = machine_clock::put_timer(b.clocks, t);
    c.ports = ports::reset(b.ports);
    c.calibration = calibration::reset(b.calibration);
    c
}

// Whether a byte for Base+8 is a reset.
pub fn is_reset(v: u8) -> bool
    ensures { result ≡ is_reset v }
{
    (v / 32 % 2 == 1) | (v / 16 % 2 == 1)
}
