// Answers, as lines.
use check_vectors::Spaced;
use record::{Kind, Record};
use refusals::Refusal;
use station::Mode;
use std::io;
use step_parts::answer::Accepted;

fn word(mode: Mode) -> &'static str {
    match mode {
        Mode::Normal => "normal",
        Mode::Mute => "mute",
        Mode::StandBy => "stand-by",
    }
}

// An entry with its phase, its station and n counts.
fn entry(rt: &impl Print, r: Record, n: u8) -> io::Result<()> {
    let counts = &r.counts[..usize::from(n).min(8)];
    print!(rt; " entry {} {}{}", r.phase, r.station, Spaced(counts))
}

// A step's answer: an entry, and a receipt's news; a mode with its phase and station; or a refusal.
pub fn answer(
    rt: &impl Print,
    n: u8,
    station: u32,
    r: Result<Accepted, Refusal>,
) -> io::Result<()> {
    match r {
        Err(refusal) => print!(rt; " no {}", u8::from(refusal))?,
        Ok(Accepted::Entry { event, news }) => {
            entry(rt, event, n)?;
            if event.kind == u8::from(Kind::Received) {
                print!(rt; " {news}")?;
            }
        }
        Ok(Accepted::InMode { mode, phase }) => {
            print!(rt; " mode {phase} {station} {}", word(mode))?;
        }
    }
    println!(rt; "")
}

// Whether it is at rest, and the line's end.
pub fn rest(rt: &impl Print, r: Result<bool, Refusal>) -> io::Result<()> {
    match r {
        Ok(true) => println!(rt; " rest yes"),
        Ok(false) => println!(rt; " rest no"),
        Err(refusal) => println!(rt; " rest refused {}", u8::from(refusal)),
    }
}

// How many receipts are left, or a refusal.
pub fn left(rt: &impl Print, r: Result<u32, Refusal>) -> io::Result<()> {
    match r {
        Ok(n) => print!(rt; " {n}"),
        Err(refusal) => print!(rt; " refused {}", u8::from(refusal)),
    }
}
