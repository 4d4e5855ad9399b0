// Lines of a program's input: each is a case, its numbers, and behind a bar what is written of it, with the rest of its numbers.
ghost use Rattle.std.specs.Prelude.{◌≤◌};

use std::array;
use std::io::{Result, Write, writer};

// The standard input, read whole into the room for it: line by line it would take a heap.
pub fn input(room: &mut [u8]) -> &[u8] {
    let n = io::read_full(0, room);
    &room[..n]
}

// A line ends in a line feed, the last one perhaps not.
pub fn ends_line(b: &u8) -> bool {
    *b == b'\n'
}

// The number that one more digit makes, or the greatest.
fn longer(x: u64, digit: u8) -> u64 {
    if x < u64::MAX / 10 {
        x * 10 + u64::from(digit % 16)
    } else {
        u64::MAX
    }
}

// A line of any bytes, without its line feed.
#[derive(Clone, Copy)]
pub struct Line<'a>(&'a [u8]);

impl<'a> Line<'a> {
    pub fn of(bytes: &'a [u8]) -> Line<'a> {
        Line(bytes.strip_suffix(b"\n").unwrap_or(bytes))
    }

    // Writes what is written of the case.
    pub fn write_label(self, rt: &impl Print) -> Result<()> {
        match self.0.iter().position(|b| *b == b'|') {
            Some(bar) => writer(rt).write_all(&self.0[bar + 1..]),
            None => Ok(()),
        }
    }

    // Number k, from 0, wherever it stands: 0 if there is none, and the greatest in the place of a greater one.
    pub fn number(self, k: usize) -> u64 {
        let mut numbers = self
            .0
            .split(|b| !b.is_ascii_digit())
            .filter(|digits| !digits.is_empty());
        match numbers.nth(k) {
            Some(digits) => digits.iter().fold(0, |x, digit| longer(x, *digit)),
            None => 0,
        }
    }

    pub fn byte(self, k: usize) -> u8 {
        (self.number(k) % 256) as u8
    }

    pub fn half(self, k: usize) -> u16 {
        (self.number(k) % 65536) as u16
    }

    pub fn word(self, k: usize) -> u32 {
        (self.number(k) % 4294967296) as u32
    }

    pub fn size(self, k: usize) -> usize {
        self.number(k) as usize
    }

    // A number, or `most` where it is greater.
    pub fn up_to(self, k: usize, most: usize) -> usize
        ensures { result ≤ most }
    {
        self.size(k).min(most)
    }

    // Eight numbers from number k on.
    pub fn bytes(self, k: usize) -> [u8; 8] {
        array::from_fn(|i| self.byte(k.saturating_add(i)))
    }

    pub fn halves(self, k: usize) -> [u16; 8] {
        array::from_fn(|i| self.half(k.saturating_add(i)))
    }
}
