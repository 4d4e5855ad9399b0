// Makes archives through the writers, and writes what lists and verdicts on found records answer. A line of the input is a call: its number, its
// numbers, and behind a bar what is written of it, with the rest of its numbers; the answer follows. Calls 1 to 4 are on a part of the bytes,
// from a byte up to another: 1 a list, 2 the verdicts on a record and all up to a number, 3 one verdict, 4 the count; from 10 on they make the
// bytes: 10 an archive of so many records, 11 its block 2 with so many, 12 a byte of a block set and the block sealed, 13 a byte set, 14 a
// byte raised; 15 ends a line.
#![tactic(auto)]

ghost use Rattle.std.specs.Prelude.{◌<◌, ◌≤◌};

use check_vectors::{Line, Told};
use clock::Verdict;
use header::Header;
use record::{Kind, Record};
use refusals::Refusal;
use std::{array, io};

// ---- the archives
// Timestamps that rise slowly with the record's number: near ones are unordered or before and after, two at a time are the same.
fn counts_of(k: usize) -> [u16; 8]
    requires { k < 10000 }
{
    let m = k / 2;
    array::from_fn(|i| (1 + m / 3 + (m + 3 * (i % 8)) % 5) as u16)
}

// Record k: three phases in turn, all stations, all kinds.
fn event(k: usize) -> Record
    requires { k < 10000 }
{
    let next = ((k + 1) % 8) as u8;
    let (kind, peer) = match k / 3 % 3 {
        0 => (Kind::Own, 255),
        1 => (Kind::Sent, next),
        _ => (Kind::Received, next),
    };
    Record {
        kind: kind.into(),
        station: (k % 8) as u8,
        peer,
        phase: (k % 3) as u32,
        register: k as u32,
        counts: counts_of(k),
    }
}

// The bytes of 15 records from number `first` on.
fn records(first: usize) -> [u8; 480]
    requires { first < 9000 }
{
    let mut rs = [0u8; 480];
    for j in 0..15 {
        check_vectors::place(&mut rs, j, event(first + j));
    }
    rs
}

// Block b, from 1, of an archive of `count` records: made alone, since all records together would take a part of the stack that few runs need.
fn block(a: &mut [u8], b: u32, count: usize)
    requires { (1 ≤ b) × (b ≤ 200) }
{
    let first = (b as usize - 1) * 15;
    let rs = records(first);
    let size = count.saturating_sub(first).min(15) * 32;
    let _ = check_vectors::block(a, b, &rs[..size]);
}

// An archive of `count` records.
fn make(a: &mut [u8], count: usize)
    requires { count ≤ 3000 }
{
    let h = Header {
        n: 8,
        t: 2000,
        allowances: [0u16; 8],
    };
    check_vectors::archive(a, h, [[5u8; 8]; 8], &[]);
    for b in 0..count.div_ceil(15) {
        block(a, b as u32 + 1, count);
    }
}

// Block 2 with `count` records.
fn second_block(a: &mut [u8], count: usize)
    requires { count ≤ 15 }
{
    block(a, 2, 15 + count);
}

// ---- what is written
// The list of a record with so many places, the first of a thousand.
fn list(rt: &impl Print, a: &[u8], s: Line) -> io::Result<()> {
    let mut all = [77777u64; 1000];
    match concurrent::unordered(a, s.size(3), &mut all[..s.up_to(4, 1000)]) {
        Ok(n) => {
            print!(rt; ": count {n}")?;
            for x in all.iter().take(n) {
                print!(rt; " {x}")?;
            }
        }
        Err(refusal) => print!(rt; ": refused {}", u8::from(refusal))?,
    }
    let left = all.iter().filter(|x| **x == 77777).count();
    println!(rt; ", left {left}")
}

// The verdict on two found records; a record that is not found is refused as the archive refuses it.
fn found_verdict(a: &[u8], first: usize, second: usize) -> Result<Verdict, Refusal> {
    archive::find(a, first)?;
    archive::find(a, second)?;
    verdict::compare(archive::found(a, first), archive::found(a, second))
}

fn order(rt: &impl Print, a: &[u8], first: usize, second: usize) -> io::Result<()> {
    print!(rt; " {}", Told(found_verdict(a, first, second)))
}

// How a record stands to every one up to a number, also past the last.
fn orders(rt: &impl Print, a: &[u8], s: Line) -> io::Result<()> {
    for second in 0..=s.up_to(3, 9000) {
        order(rt, a, s.size(4), second)?;
    }
    println!(rt; "")
}

// How many records the bytes hold, or the refusal.
fn total(rt: &impl Print, a: &[u8]) -> io::Result<()> {
    match archive::count(a) {
        Ok(n) => println!(rt; ": records {n}"),
        Err(refusal) => println!(rt; ": refused {}", u8::from(refusal)),
    }
}

// ---- the bytes
// A byte of a block is set, and the block sealed.
fn reseal(a: &mut [u8], s: Line) {
    let o = s.up_to(1, 3) * 512;
    let e = o + 512;
    if e <= a.len() {
        check_vectors::poke(a, o + s.up_to(2, 511), s.byte(3));
        check_vectors::seal(&mut a[o..e]);
    }
}

fn view(rt: &impl Print, a: &[u8], s: Line) -> io::Result<()> {
    match s.number(0) {
        1 => list(rt, a, s),
        2 => orders(rt, a, s),
        3 => order(rt, a, s.size(3), s.size(4)),
        _ => total(rt, a),
    }
}

fn change(rt: &impl Print, a: &mut [u8], s: Line) -> io::Result<()> {
    match s.number(0) {
        10 => make(a, s.up_to(1, 3000)),
        11 => second_block(a, s.up_to(1, 15)),
        12 => reseal(a, s),
        13 => check_vectors::poke(a, s.size(1), s.byte(2)),
        14 => check_vectors::lift(a, s.size(1), s.byte(2)),
        _ => println!(rt; "")?,
    }
    Ok(())
}

fn case(rt: &impl Print, a: &mut [u8; 102912], s: Line) -> io::Result<()> {
    s.write_label(rt)?;
    if s.number(0) < 10 {
        let to = s.up_to(2, 102912);
        return view(rt, &a[s.up_to(1, to)..to], s);
    }
    change(rt, a, s)
}

fn run_all(rt: &impl Print) -> io::Result<()> {
    let mut room = [0u8; 65536];
    let mut a = [0u8; 102912];
    for s in check_vectors::input(&mut room).split_inclusive(check_vectors::ends_line) {
        case(rt, &mut a, Line::of(s))?;
    }
    Ok(())
}

// A write that fails is left: there is nobody to tell.
fn main(rt: HostRuntime) {
    let _ = run_all(&check_vectors::Unheard(&rt));
}
