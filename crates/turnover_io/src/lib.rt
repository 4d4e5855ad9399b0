// Reads and writes of turnover, made again where a signal came or a file was not ready.
#![tactic(auto)]

ghost use Rattle.std.specs.Prelude.{OnOk};
ghost use Rattle.std.specs.Io.{ReadsAtMost};
ghost use Rattle.std.specs.Io.KnownBytes.{Appends, ReadConsumes};

use std::io::{Error, ErrorKind, Read, Result, Write};
use std::rt::Clock;
use std::thread;
use std::time::Duration;

// Waits for as long as is asked.
fn wait(clock: &impl Clock, asked: Duration) {
    thread::sleep(clock, asked);
}

// A call that failed is made again where a signal came, or the file was not ready, and then for a millisecond it is not asked; any other error is
// answered.
fn again(clock: &impl Clock, error: Error) -> Result<()> {
    match error.kind() {
        ErrorKind::Interrupted => Ok(()),
        ErrorKind::WouldBlock => {
            wait(clock, Duration::from_millis(1));
            Ok(())
        }
        _ => Err(error),
    }
}

// One read. Nothing says that a file is ever ready, so the calls are counted, up to a number that no run gets to.
pub fn get<R: Read>(input: &mut R, clock: &impl Clock, bytes: &mut [u8]) -> Result<usize>
    ensures bound { ReadsAtMost result bytes.new }
    ensures bytes { ReadConsumes (R.remaining input.old) (R.remaining input.new) result bytes.new }
{
    for _ in 0..u64::MAX {
        match input.read(bytes) {
            Ok(got) => return Ok(got),
            Err(error) => again(clock, error)?,
        }
    }
    Err(ErrorKind::WouldBlock.into())
}

// Writes all, each call from where the last one stopped.
pub fn put<W: Write>(output: &mut W, clock: &impl Clock, bytes: &[u8]) -> Result<()>
    ensures { OnOk result (Appends (W.contents output.old) (W.contents output.new) bytes.now) }
{
    let mut done = 0;
    for _ in 0..u64::MAX {
        if done == bytes.len() {
            return Ok(());
        }
        match output.write(&bytes[done..]) {
            Ok(0) => return Err(ErrorKind::WriteZero.into()),
            Ok(count) => done += count,
            Err(error) => again(clock, error)?,
        }
    }
    Err(ErrorKind::WouldBlock.into())
}
