// Numbers, rows, zeros, copies and the check.
ghost use Rattle.std.specs.Prelude.{◌+◌, ◌≤◌};

use check_vectors::{Line, Spaced};
use codec::Number;
use std::fmt;
use std::io::Result;

// A number written and read, and the bytes.
fn trip<T: Number + Copy + fmt::Display>(rt: &impl Print, x: T, at: usize) -> Result<()>
    requires { at + T.width ≤ 8 }
{
    let mut d = [9u8; 8];
    x.put(&mut d, at);
    println!(rt; " {}:{}", T::get(&d, at), Spaced(&d))
}

pub fn two(rt: &impl Print, s: Line) -> Result<()> {
    trip(rt, s.half(2), s.up_to(1, 6))
}

pub fn four(rt: &impl Print, s: Line) -> Result<()> {
    trip(rt, s.word(2), s.up_to(1, 4))
}

pub fn row(rt: &impl Print, s: Line) -> Result<()> {
    let at = s.up_to(9, 4);
    let mut d = [9u8; 20];
    codec::put_row(&mut d, at, s.halves(1));
    let row = codec::get_row(&d, at);
    println!(rt; ":{}, digest {}", Spaced(&row), check_vectors::digest(&d))
}

fn back(x: u16) -> bool {
    let mut d = [9u8; 3];
    x.put(&mut d, 1);
    u16::get(&d, 1) == x
}

// How many numbers of two bytes are read as they were written.
pub fn backs() -> usize {
    (0..=u16::MAX).filter(|x| back(*x)).count()
}

// Whether the first of sixteen zeros are zeros.
pub fn zeros(s: Line) -> usize {
    let d = [0u8; 16];
    usize::from(codec::zeros(&d[..s.up_to(1, 16)]))
}

fn zero_but(p: usize, x: u8) -> bool {
    let mut d = [0u8; 16];
    check_vectors::poke(&mut d, p, x);
    codec::zeros(&d)
}

// How many of sixteen places make bytes of which one is x no zeros.
pub fn found(s: Line) -> usize {
    (0..16).filter(|p| !zero_but(*p, s.byte(1))).count()
}

// Bytes 9 with zeros from a place on, and where x is not 0 bytes x over them.
pub fn run(rt: &impl Print, s: Line) -> Result<()> {
    let x = s.byte(1);
    let at = s.up_to(2, 8);
    let n = s.up_to(3, 8 - at);
    let mut d = [9u8; 8];
    codec::put_zeros(&mut d, at, n);
    if x != 0 {
        let b = [x; 8];
        codec::put_bytes(&mut d, at, &b[..n]);
    }
    println!(rt; ":{}", Spaced(&d))
}

// Bytes b, b + a, b + 2a ..
fn steps(a: u8, b: u8) -> [u8; 512] {
    let mut d = [0u8; 512];
    let mut x = b;
    for y in d.iter_mut() {
        *y = x;
        x = x.wrapping_add(a);
    }
    d
}

// The check of a whole block of such bytes.
pub fn mixed(s: Line) -> usize {
    usize::from(checksum::check(&steps(s.byte(1), s.byte(2))))
}

// Its digest and last bytes, when it is sealed.
pub fn sealed(rt: &impl Print, s: Line) -> Result<()> {
    let mut d = steps(s.byte(2), s.byte(1));
    checksum::seal(&mut d);
    println!(rt; " {}:{}", check_vectors::digest(&d), Spaced(&d[508..]))
}

// The check of a block that is zero but for two bytes.
fn pair(p: usize, x: u8, q: usize, y: u8) -> u16 {
    let mut d = [0u8; 512];
    check_vectors::poke(&mut d, p, x);
    check_vectors::poke(&mut d, q, y);
    checksum::check(&d)
}

pub fn check(s: Line) -> usize {
    usize::from(pair(s.size(1), s.byte(2), s.size(3), s.byte(4)))
}

// The checks of the blocks with one byte x at places 0 to 509, added up.
pub fn singles(s: Line) -> usize {
    let x = s.byte(1);
    let mut n = 0;
    for p in 0..510 {
        n += usize::from(pair(p, x, p, x));
    }
    n
}

// Whether x seals a block that is zero but for byte p, which is 1.
fn seal(p: usize, x: u16) -> bool {
    let mut d = [0u8; 512];
    check_vectors::poke(&mut d, p, 1);
    x.put(&mut d, 510);
    checksum::sealed(&d)
}

pub fn seals(s: Line) -> usize {
    usize::from(seal(s.size(1), s.half(2)))
}

// How many numbers do.
pub fn all_seals(s: Line) -> usize {
    let p = s.size(1);
    (0..=u16::MAX).filter(|x| seal(p, *x)).count()
}
