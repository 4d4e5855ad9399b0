// Classes of cases that header blocks, entries blocks and records share.
ghost use Rattle.std.specs.Prelude.{◌≤◌};

use crate::Line;
use codec::Number;
use refusals::{Refusal, told};
use std::io;

// What bytes are read as.
#[derive(Clone, Copy)]
pub enum Kind {
    Header,
    Entries,

    // A record in the first 32 bytes.
    First,
    Record,
}

impl From<u8> for Kind {
    fn from(k: u8) -> Kind {
        match k {
            1 => Kind::Header,
            2 => Kind::Entries,
            3 => Kind::First,
            _ => Kind::Record,
        }
    }
}

pub fn record_answer(s: &[u8]) -> Result<(), Refusal> {
    if record::well_made(s) {
        Ok(())
    } else {
        Err(Refusal::Malformed)
    }
}

// What the reader of a kind answers.
fn answer(kind: Kind, s: &[u8]) -> Result<(), Refusal> {
    match kind {
        Kind::Header => header::read(s).map(|_| ()),
        Kind::Entries => entries::read(s).map(|_| ()),
        Kind::First if s.len() < 32 => Err(Refusal::Malformed),
        Kind::First => record_answer(&s[..32]),
        Kind::Record => record_answer(s),
    }
}

// The answer to a copy with one byte set, sealed again.
pub fn resealed(kind: Kind, good: &[u8], at: usize, x: u8) -> Result<(), Refusal> {
    let mut b = [0u8; 512];
    crate::copy(&mut b, good);
    crate::poke(&mut b, at, x);
    crate::seal(&mut b);
    answer(kind, &b)
}

// How many of the bytes of a part, set to x and sealed again, are refused.
fn refused(kind: Kind, good: &[u8], from: usize, to: usize, x: u8) -> usize
    requires { to ≤ 512 }
{
    (from..=to)
        .filter(|p| resealed(kind, good, *p, x) == Err(Refusal::Malformed))
        .count()
}

// How many values of a byte are accepted, sealed again.
fn values(kind: Kind, good: &[u8], at: usize) -> usize
    ensures { result ≤ 256 }
{
    (0..=u8::MAX)
        .filter(|x| resealed(kind, good, at, *x).is_ok())
        .count()
}

// The same of each byte of a part, by its line: a kind, and the part's last byte and first.
pub fn table(rt: &impl Print, good: &[u8], s: Line) -> io::Result<()> {
    print!(rt; ":")?;
    for p in s.size(3)..=s.up_to(2, 512) {
        print!(rt; " {}", values(s.byte(1).into(), good, p))?;
    }
    println!(rt; "")
}

// The answer to a copy with one byte raised, and not sealed.
fn moved(kind: Kind, good: &[u8], at: usize, by: u8) -> Result<(), Refusal> {
    let mut b = [0u8; 512];
    crate::copy(&mut b, good);
    crate::lift(&mut b, at, by);
    answer(kind, &b)
}

// How many of the 512 bytes, each raised alone, are refused.
fn moves(kind: Kind, good: &[u8], by: u8) -> usize
    ensures { result ≤ 512 }
{
    (0..512)
        .filter(|p| moved(kind, good, *p, by) == Err(Refusal::Malformed))
        .count()
}

// The same for each of the 255 other values.
fn all_moves(kind: Kind, good: &[u8]) -> usize {
    let mut n = 0;
    for by in 1..=u8::MAX {
        n += moves(kind, good, by);
    }
    n
}

// The answer to a copy with another number for its check.
fn stored(kind: Kind, good: &[u8], x: u16) -> Result<(), Refusal> {
    let mut b = [0u8; 512];
    crate::copy(&mut b, good);
    x.put(&mut b, 510);
    answer(kind, &b)
}

// How many numbers are accepted for a check.
fn all_stored(kind: Kind, good: &[u8]) -> usize {
    (0..=u16::MAX)
        .filter(|x| stored(kind, good, *x).is_ok())
        .count()
}

// The answer to the first n of 600 bytes, the good block and zeros.
fn cut(kind: Kind, good: &[u8], n: usize) -> Result<(), Refusal>
    requires { n ≤ 600 }
{
    let mut b = [0u8; 600];
    crate::copy(&mut b, good);
    answer(kind, &b[0..n])
}

// A case on a good block, by its line: a class, a kind of block (1 a header block, 2 an entries block, 3 a record in the first bytes, 4 a
// record), and
// 1 a byte's place and value, 2 the number for its check, 3 the length that it is cut to, 4 nothing: the answer;
// 5 a part's first and last byte and a value for each, 6 by how much each byte is raised, 7 all of these: how many are refused;
// 8 all numbers for its check: how many are accepted.
pub fn sweep(good: &[u8], s: Line) -> usize {
    let kind = s.byte(1).into();
    match s.number(0) {
        1 => usize::from(told(resealed(kind, good, s.size(2), s.byte(3)))),
        2 => usize::from(told(stored(kind, good, s.half(2)))),
        3 => usize::from(told(cut(kind, good, s.up_to(2, 600)))),
        5 => refused(kind, good, s.size(2), s.up_to(3, 512), s.byte(4)),
        6 => moves(kind, good, s.byte(2)),
        7 => all_moves(kind, good),
        0 | 4 => usize::from(told(answer(kind, good))),
        _ => all_stored(kind, good),
    }
}
