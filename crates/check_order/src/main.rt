// Makes archives of the records that it is told, and writes how records of one phase and of different ones stand to each other. A line of the
// input is a call: its number, its numbers, and behind a bar what is written of it; the answer follows, a letter for each verdict (b before,
// a after, s same, u unordered) or a refusal's number. Calls 1 and 2 are on the first so many bytes: 1 how a record stands to so many from
// record 0 on, 2 so many pairs. From 10 on they make the bytes: 10 a record (its number, its station, its phase and its counts), 11 an
// archive (its stations, its ceiling) of so many records, 12 a byte raised; 13 ends a line.
#![tactic(auto)]

use check_vectors::Line;
use clock::Verdict;
use header::Header;
use record::{Kind, Record};
use std::io::Result;

// ---- the archives
// An own event, so that its counts may be any.
fn event(s: Line) -> Record {
    Record {
        kind: Kind::Own.into(),
        station: s.byte(2),
        peer: 255,
        phase: s.word(3),
        register: s.word(1),
        counts: s.halves(4),
    }
}

// An archive of the first so many records.
fn make(a: &mut [u8], rs: &[u8; 2400], s: Line) {
    let h = Header {
        n: s.byte(1),
        t: s.half(2),
        allowances: [0u16; 8],
    };
    check_vectors::archive(a, h, [[0u8; 8]; 8], &rs[..s.up_to(3, 75) * 32]);
}

// ---- what is written
fn letter(v: Verdict) -> char {
    match v {
        Verdict::Before => 'b',
        Verdict::After => 'a',
        Verdict::Same => 's',
        Verdict::Unordered => 'u',
    }
}

fn order(rt: &impl Print, a: &[u8], first: usize, second: usize) -> Result<()> {
    match phase_order::order_of(a, first, second) {
        Ok(v) => print!(rt; "{}", letter(v)),
        Err(refusal) => print!(rt; " {}", u8::from(refusal)),
    }
}

// How a record stands to each of the first so many.
fn row(rt: &impl Print, a: &[u8], s: Line) -> Result<()> {
    for second in 0..s.up_to(3, 75) {
        order(rt, a, s.size(2), second)?;
    }
    println!(rt; "")
}

// The pairs that are told.
fn pairs(rt: &impl Print, a: &[u8], s: Line) -> Result<()> {
    for i in 0..s.up_to(2, 100) {
        order(rt, a, s.size(i * 2 + 3), s.size(i * 2 + 4))?;
    }
    println!(rt; "")
}

fn case(rt: &impl Print, a: &mut [u8; 3072], rs: &mut [u8; 2400], s: Line) -> Result<()> {
    s.write_label(rt)?;
    let to = s.up_to(1, 3072);
    match s.number(0) {
        1 => row(rt, &a[..to], s)?,
        0 | 2..=9 => pairs(rt, &a[..to], s)?,
        10 => check_vectors::place(rs, s.up_to(1, 74), event(s)),
        11 => make(a, rs, s),
        12 => check_vectors::lift(a, s.size(1), s.byte(2)),
        _ => println!(rt; "")?,
    }
    Ok(())
}

fn run_all(rt: &impl Print) -> Result<()> {
    let mut room = [0u8; 131072];
    let mut a = [0u8; 3072];
    let mut rs = [0u8; 2400];
    for s in check_vectors::input(&mut room).split_inclusive(check_vectors::ends_line) {
        case(rt, &mut a, &mut rs, Line::of(s))?;
    }
    Ok(())
}

// A write that fails is left: there is nobody to tell.
fn main(rt: HostRuntime) {
    let _ = run_all(&check_vectors::Unheard(&rt));
}
