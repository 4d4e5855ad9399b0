// Header blocks.
ghost use Rattle.std.specs.Prelude.{◌<◌};

use check_vectors::{Left, Line, Spaced};
use header::Header;
use refusals::told;
use std::io;

const LIMITS: [[u8; 8]; 8] = [
    [0, 1, 2, 3, 4, 5, 6, 7],
    [8, 9, 10, 11, 12, 13, 14, 15],
    [16, 17, 18, 19, 20, 21, 22, 23],
    [24, 25, 26, 27, 28, 29, 30, 31],
    [32, 0, 32, 0, 32, 0, 32, 0],
    [7, 7, 7, 7, 7, 7, 7, 7],
    [0, 0, 0, 0, 0, 0, 0, 0],
    [1, 0, 0, 0, 0, 0, 0, 32],
];

const NONE: Header = Header {
    n: 0,
    t: 0,
    allowances: [0; 8],
};

// All allowances the line's, or each another.
fn allowances_of(s: Line) -> [u16; 8] {
    if s.number(1) == 1 {
        return [0, 1, 255, 256, 257, 4660, 65534, 65535];
    }
    [s.half(2); 8]
}

fn limits_of(s: Line) -> [[u8; 8]; 8] {
    if s.number(1) == 1 {
        return LIMITS;
    }
    [[s.byte(3); 8]; 8]
}

fn header_of(s: Line) -> Header {
    Header {
        n: s.byte(4),
        t: s.half(5),
        allowances: allowances_of(s),
    }
}

// Writes into the first of 600 bytes 7.
pub fn into(rt: &impl Print, s: Line) -> io::Result<()> {
    let mut d = [7u8; 600];
    let r = header::write(header_of(s), limits_of(s), &mut d[..s.up_to(6, 600)]);
    println!(rt; ": {}, {}", told(r), Left(&d))
}

// A block, or one with a byte set.
pub fn made(s: Line) -> [u8; 512] {
    let mut d = [7u8; 512];
    let _ = header::write(header_of(s), limits_of(s), &mut d);
    if s.number(0) == 11 {
        check_vectors::poke(&mut d, s.size(6), s.byte(7));
    }
    d
}

// What is read of a block: a header that is refused gives no fields.
pub fn shown(rt: &impl Print, d: &[u8]) -> io::Result<()> {
    let r = header::read(d);
    let h = r.unwrap_or(NONE);
    let limits = header::read_limits(d);
    println!(rt;
        "header read: {}, n {}, t {}, allowances{}, limits{}",
        told(r.map(|_| ())),
        h.n,
        h.t,
        Spaced(&h.allowances),
        Spaced(limits.as_flattened())
    )
}

// The answer to a write with one limit x.
fn limit(k: usize, x: u8) -> u8
    requires { k < 64 }
{
    let mut m = [[0u8; 8]; 8];
    m[k / 8][k % 8] = x;
    let mut d = [7u8; 512];
    let h = Header {
        n: 8,
        t: 1,
        allowances: [0u16; 8],
    };
    told(header::write(h, m, &mut d))
}

// How many of the 64 places are answered so.
pub fn limits(s: Line) -> usize {
    (0..64)
        .filter(|k| limit(*k, s.byte(1)) == s.byte(2))
        .count()
}
