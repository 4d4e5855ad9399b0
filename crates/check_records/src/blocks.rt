// Entries blocks.
ghost use Rattle.std.specs.Prelude.{◌<◌, ◌≤◌};

use check_vectors::{Kind, Left, Line};
use entries::EntriesRead;
use header::Header;
use record::Record;
use refusals::{Refusal, told};
use std::io;

// Record k: of each kind in turn, its own count 1.
fn nth(k: usize) -> Record
    requires { k < 20 }
{
    let j = (k + 1) % 8;
    let (kind, peer) = match k % 3 {
        0 => (record::Kind::Own, 255),
        1 => (record::Kind::Sent, j as u8),
        _ => (record::Kind::Received, j as u8),
    };
    Record {
        kind: kind.into(),
        station: (k % 8) as u8,
        peer,
        phase: 999999,
        register: (k % 15 * 1000) as u32,
        counts: check_vectors::with(1, j, (300 + k % 15) as u16),
    }
}

// The bytes of twenty records, one byte set to x.
fn records(at: usize, x: u8) -> [u8; 640] {
    let mut rs = [0u8; 640];
    for k in 0..20 {
        check_vectors::place(&mut rs, k, nth(k));
    }
    check_vectors::poke(&mut rs, at, x);
    rs
}

// Writes the first bytes of records.
fn write(s: Line, d: &mut [u8]) -> Result<(), Refusal> {
    let rs = records(640, 0);
    entries::write(s.word(1), &rs[..s.up_to(2, 640)], d)
}

// Writes into the first of 600 bytes 7.
pub fn into(rt: &impl Print, s: Line) -> io::Result<()> {
    let mut d = [7u8; 600];
    let r = write(s, &mut d[..s.up_to(3, 600)]);
    println!(rt; ": {}, {}", told(r), Left(&d))
}

pub fn made(s: Line) -> [u8; 512] {
    let mut d = [7u8; 512];
    let _ = write(s, &mut d);
    d
}

// The same with one byte set.
pub fn spoilt(s: Line) -> [u8; 512] {
    let mut d = made(s);
    check_vectors::poke(&mut d, s.size(3), s.byte(4));
    d
}

// What is read of a block.
pub fn shown(rt: &impl Print, d: &[u8]) -> io::Result<()> {
    match entries::read(d) {
        Ok(EntriesRead { number, count }) => {
            println!(rt; "entries read, number and count {number}: {count}")
        }
        Err(refusal) => println!(rt; "entries refused: {}", u8::from(refusal)),
    }
}

// What a write of 15 records of which one byte is set answers.
fn ill_write(at: usize, x: u8) -> Result<(), Refusal> {
    let rs = records(at, x);
    let mut d = [7u8; 511];
    entries::write(1, &rs[0..480], &mut d)
}

// How many of the records, made ill, are refused in a write.
fn ill_writes(at: usize, x: u8) -> usize
    requires { at < 32 }
    ensures { result ≤ 15 }
{
    (0..15)
        .filter(|k| ill_write(*k * 32 + at, x) == Err(Refusal::Malformed))
        .count()
}

// How many of the records of a block are refused, where of each a byte is x: that at `at`, or of the own count from there on. Or `at` holds the
// record's station.
fn refused(good: &[u8], at: usize, own: bool, x: usize, station: bool) -> usize
    requires { (at ≤ 48) × (x ≤ 255) }
    ensures { result ≤ 15 }
{
    (0..15)
        .filter(|k| {
            let i = *k % 8;
            let p = at + *k * 32 + if own { i * 2 } else { 0 };
            let y = x + if station { i } else { 0 };
            check_vectors::resealed(Kind::Entries, good, p, (y % 256) as u8)
                == Err(Refusal::Malformed)
        })
        .count()
}

// How many of the records, made ill by one byte, are refused in a write, and in a block that is read.
pub fn ill(good: &[u8], s: Line) -> usize {
    let at = s.up_to(1, 31);
    let x = s.up_to(2, 255);
    ill_writes(at, x as u8) + refused(good, 16 + at, false, x, false)
}

pub fn own_fields(good: &[u8], s: Line) -> usize {
    refused(good, s.up_to(1, 48), s.number(2) == 1, 0, s.number(3) == 1)
}

pub fn start(s: Line) -> usize {
    entries::start_of(s.up_to(1, 14))
}

// Copies a record from the first bytes of a block and a zero into the first of 40 bytes 7: 1 comes before 12, and 12 before 11.
pub fn fetch(rt: &impl Print, block: &[u8], s: Line) -> io::Result<()> {
    let mut b = [0u8; 513];
    check_vectors::copy(&mut b, block);
    let mut d = [7u8; 40];
    let r = entries::read_record(&b[..s.up_to(1, 513)], s.size(2), &mut d[..s.up_to(3, 40)]);
    println!(rt; ": {}, {}", told(r), Left(&d))
}

// A header block is no entries block.
pub fn other_kind() -> [u8; 512] {
    let mut d = [7u8; 512];
    let h = Header {
        n: 2,
        t: 1,
        allowances: [0u16; 8],
    };
    let _ = header::write(h, [[0u8; 8]; 8], &mut d);
    d
}
