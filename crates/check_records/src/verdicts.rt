// Verdicts on two records.
ghost use Rattle.std.specs.Prelude.{◌<◌};

use crate::records;
use check_vectors::{Line, Told};
use clock::Verdict;
use record::{Kind, Record};
use refusals::Refusal;
use std::io;

// A verdict's number, or a refusal's.
fn number(r: Result<Verdict, Refusal>) -> u8 {
    match r {
        Ok(v) => v.into(),
        Err(refusal) => refusal.into(),
    }
}

// An own record of a station, at a phase.
fn own(station: u8, phase: u32, counts: [u16; 8]) -> Record {
    Record {
        kind: Kind::Own.into(),
        station,
        peer: 255,
        phase,
        register: 0,
        counts,
    }
}

fn bytes_of(r: Record) -> [u8; 32] {
    let mut d = [0u8; 32];
    record::store(&mut d, r);
    d
}

fn verdict(a: Record, b: Record) -> Result<Verdict, Refusal> {
    verdict::compare(&bytes_of(a), &bytes_of(b))
}

// A station, its phase and its first two counts, the others 0.
fn two(s: Line, k: usize) -> Record
    requires { k < 100 }
{
    own(
        s.byte(k),
        s.word(k + 1),
        [s.half(k + 2), s.half(k + 3), 0, 0, 0, 0, 0, 0],
    )
}

// The verdict on two such records.
pub fn pair(rt: &impl Print, s: Line) -> io::Result<()> {
    println!(rt; ": {}", Told(verdict(two(s, 1), two(s, 5))))
}

// The verdict on the bytes at hand and the record of the line, which it reads by phases and counts alone.
pub fn other(d: &[u8], s: Line) -> usize {
    if d.len() < 32 {
        return 0;
    }
    let e = bytes_of(records::record_of(s));
    usize::from(number(verdict::compare(&d[..32], &e)))
}

fn place(i: usize, j: usize, x: u16, y: u16) -> u8
    requires { (i < 8) × (j < 8) }
{
    let a = own(3, 7, check_vectors::with(5, i, x));
    let b = own(6, 7, check_vectors::with(5, j, y));
    number(verdict(a, b))
}

// How many of the eight places are answered so, where one count is x in the first record and y, so many places on, in the second.
pub fn places(s: Line) -> usize {
    let on = s.up_to(1, 8);
    (0..8)
        .filter(|i| place(*i, (*i + on) % 8, s.half(2), s.half(3)) == s.byte(4))
        .count()
}

// The verdict on the first n and the first m bytes.
pub fn cut(d: &[u8], s: Line) -> usize {
    if d.len() < 40 {
        return 0;
    }
    let r = verdict::compare(&d[..s.up_to(1, 40)], &d[..s.up_to(2, 40)]);
    usize::from(number(r))
}
