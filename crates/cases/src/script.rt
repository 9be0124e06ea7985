// The line language of the programs that run named cases: a name, a colon, then operations. An operation is a lower-case letter and
// hex digits (capitals); it is complete at the first byte that is no digit.
ghost use Rattle.std.specs.Prelude.{◌≡◌, Some, None, if◌then◌else◌};
ghost use Rattle.cases.specs.Script.{fresh_script, is_digit, digit_value, longer, named, opened, operated, stepped};

// An operation, as far as it has been read.
#[derive(Clone, Copy)]
pub struct Operation {
    pub letter: u8,
    pub value: u32,
}

// Where the text stands: in a name or behind one, and the operation that has begun.
#[derive(Clone, Copy)]
pub struct Script {
    pub naming: bool,
    pub operation: Option<Operation>,
}

// What a byte brings: an operation that is now complete, whether the byte is to be shown, whether a line ended.
#[derive(Clone, Copy)]
pub struct Step {
    pub script: Script,
    pub operation: Option<Operation>,
    pub shown: bool,
    pub ended: bool,
}

// Before the first line.
pub fn begin() -> Script
    ensures { result ≡ fresh_script }
{
    Script {
        naming: true,
        operation: None,
    }
}

// The value of a hex digit; no other byte has one.
fn digit_of(byte: u8) -> Option<u32>
    ensures { result ≡ (if is_digit byte then Some (digit_value byte) else None) }
{
    match byte {
        b'0'..=b'9' => Some((byte - b'0') as u32),
        b'A'..=b'F' => Some((byte - b'A') as u32 + 10),
        _ => None,
    }
}

// One digit more; of the value the last eight are kept.
fn longer(o: Operation, digit: u32) -> Operation
    ensures { result ≡ longer o digit }
{
    Operation {
        value: o.value % 268435456 * 16 + digit % 16,
        ..o
    }
}

fn name(s: Script, byte: u8) -> Step
    ensures { result ≡ named s byte }
{
    Step {
        script: Script {
            naming: byte != b':',
            ..s
        },
        operation: None,
        shown: true,
        ended: byte == b'\n',
    }
}

fn open(byte: u8) -> Script
    ensures { result ≡ opened byte }
{
    match byte {
        b'a'..=b'z' => Script {
            naming: false,
            operation: Some(Operation {
                letter: byte,
                value: 0,
            }),
        },
        _ => Script {
            naming: byte == b'\n',
            operation: None,
        },
    }
}

fn operate(s: Script, byte: u8) -> Step
    ensures { result ≡ operated s byte }
{
    match digit_of(byte) {
        Some(digit) => Step {
            script: Script {
                operation: s.operation.map(|o| longer(o, digit)),
                ..s
            },
            operation: None,
            shown: false,
            ended: false,
        },
        None => Step {
            script: open(byte),
            operation: s.operation,
            shown: byte == b'\n',
            ended: byte == b'\n',
        },
    }
}

// The next byte of the text.
#[tactic(auto, unfolding(crate::specs::Script::stepped))]
pub fn take_byte(s: Script, byte: u8) -> Step
    ensures { result ≡ stepped s byte }
{
    if s.naming {
        name(s, byte)
    } else {
        operate(s, byte)
    }
}
