// The cases of standard input, run one after the other.
use super::script;
use super::script::Operation;
use std::io;
use std::io::Read;

// What the operations of a case are done on.
pub trait Bench {
    // Does an operation, and shows what it brings. A letter that is no operation's does nothing.
    fn operate<R: Print>(&mut self, rt: &R, operation: Operation) -> io::Result<()>;

    // Puts what a line begins with.
    fn renew(&mut self);
}

// Hands on standard input byte by byte. A proved loop has to end, and nothing says that the input does: no input has as many pieces as there are reads.
pub fn each_byte<F: FnMut(u8) -> io::Result<()>>(rt: &impl Input, mut take: F) -> io::Result<()>
    requires { F.IsAlwaysCallable take }
{
    let mut input = rt.reader();
    let mut buf = [0u8; 4096];
    for _ in 0..u64::MAX {
        let read = input.read(&mut buf)?;
        if read == 0 {
            break;
        }
        for &byte in &buf[..read] {
            take(byte)?;
        }
    }
    Ok(())
}

// Runs the cases of standard input: an operation is done where a byte completes it, and the byte is shown where it belongs to the answer.
pub fn run(rt: &(impl Input + Print), bench: &mut impl Bench) -> io::Result<()> {
    let mut script = script::begin();
    each_byte(rt, |byte| {
        let step = script::take_byte(script, byte);
        script = step.script;
        if let Some(operation) = step.operation {
            bench.operate(rt, operation)?;
        }
        if step.shown {
            rt.write_all(&[byte])?;
        }
        if step.ended {
            bench.renew();
        }
        Ok(())
    })
}
