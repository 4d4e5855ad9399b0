// Runs the vectors of `codec`, `checksum` and `header`. A line of the input is a case: first numbers that are not shown, the number of the
// call before the others, and behind a bar what is written of it, with the rest of its numbers. The answer follows, or how many of a class
// of cases were answered so. Calls 1 to 9 are those of `check_vectors::sweep` and `table`; 10 and 11 make the block that the next cases are on.
#![tactic(auto)]

mod headers;
mod numbers;

use check_vectors::Line;
use std::io::Result;

fn counted(d: &[u8], s: Line) -> usize {
    match s.number(0) {
        12 => numbers::backs(),
        13 => numbers::zeros(s),
        14 => numbers::found(s),
        15 => numbers::check(s),
        16 => numbers::singles(s),
        17 => numbers::mixed(s),
        18 => numbers::seals(s),
        19 => numbers::all_seals(s),
        20 => headers::limits(s),
        _ => check_vectors::sweep(d, s),
    }
}

fn case(rt: &impl Print, d: &[u8], s: Line) -> Result<()> {
    s.write_label(rt)?;
    match s.number(0) {
        9 => check_vectors::table(rt, d, s),
        21 => numbers::two(rt, s),
        22 => numbers::four(rt, s),
        23 => numbers::row(rt, s),
        24 => numbers::run(rt, s),
        25 => numbers::sealed(rt, s),
        26 => headers::into(rt, s),
        27 => headers::shown(rt, d),
        _ => println!(rt; ": {}", counted(d, s)),
    }
}

fn run_all(rt: &impl Print) -> Result<()> {
    let mut room = [0u8; 65536];
    let mut d = [7u8; 512];
    for s in check_vectors::input(&mut room).split_inclusive(check_vectors::ends_line) {
        let s = Line::of(s);
        match s.number(0) {
            10 | 11 => d = headers::made(s),
            _ => case(rt, &d, s)?,
        }
    }
    Ok(())
}

// A write that fails is left: there is nobody to tell.
fn main(rt: HostRuntime) {
    let _ = run_all(&check_vectors::Unheard(&rt));
}
