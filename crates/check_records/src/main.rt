// Runs the vectors of `record`, `entries` and `verdict`. A line of the input is a case: first numbers that are not shown, the number of the
// call before the others, and behind a bar what is written of it, with the rest of its numbers. The answer follows, or how many of a class
// of cases were answered so. Calls 1 to 9 are those of `check_vectors::sweep` and `table`; 10 to 13 make the bytes that the next cases are on.
#![tactic(auto)]

mod blocks;
mod records;
mod verdicts;

use check_vectors::Line;
use std::io::Result;

fn counted(d: &[u8], s: Line) -> usize {
    match s.number(0) {
        14 => records::fits(d),
        15 => blocks::ill(d, s),
        16 => blocks::own_fields(d, s),
        17 => blocks::start(s),
        18 => verdicts::places(s),
        19 => verdicts::other(d, s),
        20 => verdicts::cut(d, s),
        _ => check_vectors::sweep(d, s),
    }
}

fn case(rt: &impl Print, d: &[u8], s: Line) -> Result<()> {
    s.write_label(rt)?;
    match s.number(0) {
        9 => check_vectors::table(rt, d, s),
        21 => records::trip(rt, s),
        22 => blocks::into(rt, s),
        23 => blocks::shown(rt, d),
        24 => blocks::fetch(rt, d, s),
        25 => verdicts::pair(rt, s),
        _ => println!(rt; ": {}", counted(d, s)),
    }
}

fn run_all(rt: &impl Print) -> Result<()> {
    let mut room = [0u8; 65536];
    let mut d = [7u8; 512];
    for s in check_vectors::input(&mut room).split_inclusive(check_vectors::ends_line) {
        let s = Line::of(s);
        match s.number(0) {
            10 => d = records::made(s),
            11 => d = blocks::made(s),
            12 => d = blocks::spoilt(s),
            13 => d = blocks::other_kind(),
            _ => case(rt, &d, s)?,
        }
    }
    Ok(())
}

// A write that fails is left: there is nobody to tell.
fn main(rt: HostRuntime) {
    let _ = run_all(&check_vectors::Unheard(&rt));
}
