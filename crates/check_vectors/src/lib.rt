// What the programs that run vectors share: bytes that are set and counted, the lines that they read, what they write, and classes of cases.
#![tactic(auto)]

mod archives;
mod line;
mod sweeps;
mod unheard;

ghost use Rattle.std.specs.Prelude.{◌≡◌, ◌<◌, get_or};

pub use archives::{archive, block, place};
use clock::Verdict;
pub use line::{Line, ends_line, input};
use refusals::Refusal;
use std::fmt;
pub use sweeps::{Kind, record_answer, resealed, sweep, table};
pub use unheard::Unheard;

pub fn poke(d: &mut [u8], at: usize, x: u8) {
    if at < d.len() {
        d[at] = x;
    }
}

// Raises a byte, from 255 on to 0.
pub fn lift(d: &mut [u8], at: usize, by: u8) {
    if at < d.len() {
        d[at] = d[at].wrapping_add(by);
    }
}

pub fn seal(d: &mut [u8]) {
    if d.len() == 512 {
        checksum::seal(d);
    }
}

pub fn copy(d: &mut [u8], s: &[u8]) {
    if s.len() <= d.len() {
        d[..s.len()].copy_from_slice(s);
    }
}

// Numbers y, with x at place i.
pub fn with(y: u16, i: usize, x: u16) -> [u16; 8]
    requires { i < 8 }
    ensures { get_or result i 0 ≡ x }
{
    let mut c = [y; 8];
    c[i] = x;
    c
}

// A number that tells lists of bytes apart.
pub fn digest(s: &[u8]) -> u64 {
    let mut h: u64 = 1;
    for x in s {
        h = (h * 257 + u64::from(*x)) % 1000000007;
    }
    h
}

// How many are not x.
pub fn others<T: PartialEq + Copy>(s: &[T], x: T) -> usize {
    s.iter().filter(|y| **y != x).count()
}

// Numbers, a space before each.
#[derive(Clone, Copy)]
pub struct Spaced<'a, T>(pub &'a [T]);

impl<T: fmt::Display> fmt::Display for Spaced<'_, T> {
    fn fmt<W: fmt::Write>(&self, f: &mut fmt::Formatter<W>) -> fmt::Result {
        for x in self.0 {
            write!(f, " {x}")?;
        }
        Ok(())
    }
}

// A buffer of bytes 7 after a call: how many of it are not 7, and the digest of it all.
#[derive(Clone, Copy)]
pub struct Left<'a>(pub &'a [u8]);

impl fmt::Display for Left<'_> {
    fn fmt<W: fmt::Write>(&self, f: &mut fmt::Formatter<W>) -> fmt::Result {
        write!(f, "not 7: {}, digest {}", others(self.0, 7), digest(self.0))
    }
}

pub fn word(v: Verdict) -> &'static str {
    match v {
        Verdict::Before => "before",
        Verdict::After => "after",
        Verdict::Same => "same",
        Verdict::Unordered => "unordered",
    }
}

// A verdict's word, or a refusal's number.
#[derive(Clone, Copy)]
pub struct Told(pub Result<Verdict, Refusal>);

impl fmt::Display for Told {
    fn fmt<W: fmt::Write>(&self, f: &mut fmt::Formatter<W>) -> fmt::Result {
        match self.0 {
            Ok(v) => write!(f, "{}", word(v)),
            Err(refusal) => write!(f, "{}", u8::from(refusal)),
        }
    }
}
