// turnover: runs the network that standard input describes and prints what each step answers. What is printed is decided in turnover_session;
// here the bytes of each read are handed on, and the answers written.
#![tactic(auto)]

ghost use Rattle.std.specs.Prelude.{◌≡◌, List, ℕ, ◌≤◌, length, IfOk, OnOk};
ghost use Rattle.turnover_session.specs.Turnover.{SessionPasses, Prints};

use std::io::{ErrorKind, Read, Result, Write};
use std::rt::Clock;
use turnover_session::Session;

// The bytes of one read: as many as the buffer has room for the answers of, then those answers written, and so on.
fn feed<W: Write>(
    session: &mut Session<65536>,
    output: &mut W,
    clock: &impl Clock,
    bytes: &[u8],
    out: &mut [u8],
) -> Result<()>
    requires { length out.old ≡ 65536 }
    ensures { OnOk result (SessionPasses session.old bytes.now session.new) }
{
    let mut rest = bytes;
    'bytes: while !rest.is_empty() {
        let (left, end) = turnover_parts::take_lines(session, rest, out, 0);
        turnover_io::put(output, clock, &out[..end])?;
        rest = left;
    }
    Ok(())
}

// One read, and what it brings. Answers whether to go on: behind a refused setup no more is read, since nothing more is printed.
fn turn<R: Read, W: Write>(
    session: &mut Session<65536>,
    input: &mut R,
    output: &mut W,
    clock: &impl Clock,
    bytes: &mut [u8],
    out: &mut [u8],
) -> Result<bool>
    requires { length out.old ≡ 65536 }
    ensures { OnOk result ((input : List ℕ) × SessionPasses session.old input session.new) }
{
    let n = turnover_io::get(input, clock, bytes)?;
    feed(session, output, clock, &bytes[..n], out)?;
    Ok((n > 0) & !session.state.ended())
}

// Answers where the rest of what is printed ends in the buffer. Nothing says that the input ends, so the reads are counted as well.
fn run<R: Read, W: Write>(
    input: &mut R,
    output: &mut W,
    clock: &impl Clock,
    bytes: &mut [u8],
    out: &mut [u8],
) -> Result<usize>
    requires { length out.old ≡ 65536 }
    ensures { IfOk result (λ end. Prints out.new end × (end ≤ 65536)) }
{
    let mut session = Session::new();
    for _ in 0..u64::MAX {
        if !turn(&mut session, input, output, clock, bytes, out)? {
            return Ok(turnover_parts::finish(&mut session, out, 0));
        }
    }
    Err(ErrorKind::WouldBlock.into())
}

fn main(rt: HostRuntime) {
    let mut input = rt.reader();
    let mut output = std::io::writer(&rt);
    let mut bytes = io::large_buffer();
    let mut out = io::large_buffer();
    if let Ok(end) = run(&mut input, &mut output, &rt, &mut bytes, &mut out) {
        let _ = turnover_io::put(&mut output, &rt, &out[..end]);
    }
}
