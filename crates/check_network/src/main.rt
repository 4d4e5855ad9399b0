// Drives networks over a lent area. A line of the input is a call: its number, its numbers, and behind a bar what is written of it; what it
// answers follows. `case` has the calls.
#![tactic(auto)]

mod drain;
mod setups;
mod show;

use check_vectors::Line;
use refusals::{Refusal, told};
use std::io;
use step_parts::answer::Accepted;

// A step by its line: the call, how many counts are shown, a station, its peer, a register number, and the number of the step.
fn stepped(area: &mut [u8], k: u64, s: Line) -> Result<Accepted, Refusal> {
    let i = s.word(2);
    match k {
        1 => network::enter(area, i, s.word(4)),
        2 => network::send(area, i, s.word(3), s.word(4)),
        3 => network::recv(area, i, s.word(3)),
        _ => network::start(area, i),
    }
}

// A call on an area of any length: 1 to 4 a step, 5 rest, 6 receipts to rest. The number is the input's; an enum would be matched twice for it.
fn call(rt: &impl Print, area: &mut [u8], k: u64, s: Line) -> io::Result<()> {
    print!(rt; "{}", s.number(5))?;
    match k {
        5 => show::rest(rt, quiescence::rest(area)),
        6 => {
            print!(rt; " receipts")?;
            show::left(rt, receipts::to_rest(area))?;
            println!(rt; "")
        }
        _ => show::answer(rt, s.byte(1), s.word(2), stepped(area, k, s)),
    }
}

// A receipt, shown unless there is nothing to take.
fn taken(rt: &impl Print, area: &mut [u8; 65536], s: Line, i: u32, j: u32) -> io::Result<()> {
    let r = network::recv(area, i, j);
    if matches!(r, Err(Refusal::NoSuchStation | Refusal::EmptyLink)) {
        return Ok(());
    }
    print!(rt; "{}", s.number(5))?;
    show::answer(rt, s.byte(1), i, r)
}

// A receipt by every station from every station.
fn receipts(rt: &impl Print, area: &mut [u8; 65536], s: Line) -> io::Result<()> {
    for k in 0..64 {
        taken(rt, area, s, k / 8, k % 8)?;
    }
    Ok(())
}

// What a step of station 200 answers on the area with one byte raised: 2 where that is no image, else 4. The byte is lowered again.
fn flipped(area: &mut [u8; 65536], at: usize, by: u8) -> u8 {
    check_vectors::lift(area, at, by);
    let r = network::enter(area, 200, 0);
    check_vectors::lift(area, at, by.wrapping_neg());
    told(r.map(|_| ()))
}

// How many of the bytes, each raised alone, have the answer k.
fn flips(area: &mut [u8; 65536], k: u8, by: u8) -> u32 {
    let mut n = 0;
    for p in 0..65536 {
        if flipped(area, p, by) == k {
            n += 1;
        }
    }
    n
}

// Calls: 1 enter, 2 send, 3 recv, 4 start, 5 rest, 14 receipts to rest; 21 to 26 the same on all bytes of the area but the last; 6 sets a
// byte; 7 is a receipt by every station from every station, and shows those that are accepted; 8 sets all bytes to 7; 9 setup, 10 with its
// answer; 11 raises each byte alone; 12 random steps; 13 receipts alone on a copy, until none is accepted; 30 ends a line; 31 is the bytes
// that are not 7; 32 the digest.
fn case(rt: &impl Print, area: &mut [u8; 65536], s: Line) -> io::Result<()> {
    s.write_label(rt)?;
    let k = s.number(0);
    match k {
        0..=5 => call(rt, area, k, s)?,
        6 => check_vectors::poke(area, s.size(2), s.byte(3)),
        7 => receipts(rt, area, s)?,
        8 => area.fill(7),
        9 => drop(setups::lent(area, s)),
        10 => println!(rt; " {}", told(setups::lent(area, s)))?,
        11 => print!(rt; " {}", flips(area, s.byte(1), s.byte(2)))?,
        12 => drain::walk(area, s),
        13 => drain::drain(rt, area, s)?,
        14..=19 => call(rt, area, 6, s)?,
        20..=29 => call(rt, &mut area[..65535], k % 10, s)?,
        30 => println!(rt; "")?,
        31 => println!(rt; " {}", check_vectors::others(area, 7))?,
        _ => println!(rt; " {}", check_vectors::digest(area))?,
    }
    Ok(())
}

fn run_all(rt: &impl Print) -> io::Result<()> {
    let mut room = [0u8; 65536];
    let mut area = [0u8; 65536];
    for s in check_vectors::input(&mut room).split_inclusive(check_vectors::ends_line) {
        case(rt, &mut area, Line::of(s))?;
    }
    Ok(())
}

// A write that fails is left: there is nobody to tell.
fn main(rt: HostRuntime) {
    let _ = run_all(&check_vectors::Unheard(&rt));
}
