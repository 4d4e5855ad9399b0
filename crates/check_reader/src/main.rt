// Makes archives of few records and bytes that are none, takes a reader through each, and writes what every call answers: the
// refusal, and the register number of the record that the reader then hands back.
#![tactic(auto)]

ghost use Rattle.std.specs.Prelude.{◌≤◌, ◌<◌};

use header::Header;
use reader::Reader;
use record::{Kind, Record};
use refusals::{Refusal, told};
use std::io;

// The k-th record: own, sent from station 0 to 1, and received at 1 from 0, in turn.
fn event(k: usize) -> Record
    requires { k < 45 }
{
    let (kind, station, peer) = match k % 3 {
        0 => (Kind::Own, 0, 255),
        1 => (Kind::Sent, 0, 1),
        _ => (Kind::Received, 1, 0),
    };
    let c = (k + 1) as u16;
    Record {
        kind: kind.into(),
        station,
        peer,
        phase: k as u32 / 4,
        register: 1000 + k as u32,
        counts: [c, c, 0, 0, 0, 0, 0, 0],
    }
}

// The bytes of n records, and zeros.
fn events(n: usize) -> [u8; 1440]
    requires { n ≤ 45 }
{
    let mut rs = [0u8; 1440];
    for k in 0..n {
        check_vectors::place(&mut rs, k, event(k));
    }
    rs
}

// How many bytes an archive of n records takes.
fn length(n: usize) -> usize
    requires { n ≤ 45 }
    ensures { result ≤ 2048 }
{
    (n.div_ceil(15) + 1) * 512
}

// An archive of n records, and bytes behind it.
fn make(rt: &impl Print, n: usize) -> io::Result<[u8; 2048]>
    requires { n ≤ 45 }
{
    let mut a = [0u8; 2048];
    let mut limits = [[0u8; 8]; 8];
    limits[0] = [0, 3, 0, 0, 0, 0, 0, 0];
    limits[1] = [2, 0, 0, 0, 0, 0, 0, 0];
    let h = Header {
        n: 2,
        t: 99,
        allowances: [5, 5, 0, 0, 0, 0, 0, 0],
    };
    print!(rt; "header {}", told(header::write(h, limits, &mut a)))?;
    let rs = events(n);
    for (b, part) in (1..=u32::MAX).zip(rs[..n * 32].chunks(480)) {
        print!(rt; ", block {}", told(check_vectors::block(&mut a, b, part)))?;
    }
    Ok(a)
}

// A part that a reader handed back, beside the record that `archive::found` gives; record k has register number 1000 + k.
fn tell(rt: &impl Print, a: &[u8], part: &[u8]) -> io::Result<()> {
    if part.len() < 32 {
        return print!(rt; " none");
    }
    let register = record::load(part).register as usize;
    print!(rt; " {register}")?;
    if (register >= 1000) && (part == archive::found(a, register - 1000)) {
        print!(rt; " as found")?;
    }
    Ok(())
}

// What a call answered, and what the reader then hands back.
fn report(
    rt: &impl Print,
    a: &[u8],
    answer: Result<(), Refusal>,
    reader: Reader,
) -> io::Result<()> {
    print!(rt; "; {}", told(answer))?;
    tell(rt, a, reader.record())
}

// A reader is made, opened at x, moved on twice, opened at y and moved on.
fn visit(rt: &impl Print, a: &[u8], x: usize, y: usize) -> io::Result<()> {
    print!(rt; "\nopen {x} and {y}; made")?;
    let mut reader = Reader::new(a);
    tell(rt, a, reader.record())?;
    let opened = reader.open(x);
    report(rt, a, opened, reader)?;
    let moved = reader.advance();
    report(rt, a, moved, reader)?;
    let again = reader.advance();
    report(rt, a, again, reader)?;
    let back = reader.open(y);
    report(rt, a, back, reader)?;
    let on = reader.advance();
    report(rt, a, on, reader)
}

// The ends of an archive of n records, and the border of its first block.
fn ends(rt: &impl Print, a: &[u8], n: usize) -> io::Result<()>
    requires { n ≤ 45 }
{
    visit(rt, a, 0, n)?;
    visit(rt, a, n, 0)?;
    visit(rt, a, usize::MAX, n / 2)?;
    visit(rt, a, n / 2, usize::MAX)?;
    visit(rt, a, 13, 29)?;
    if 2 <= n {
        visit(rt, a, n - 2, n - 1)?;
        visit(rt, a, n - 1, n - 2)?;
    }
    Ok(())
}

// From every record of n on, and back by as many from the end.
fn all(rt: &impl Print, a: &[u8], n: usize) -> io::Result<()> {
    for k in 0..n {
        visit(rt, a, k, n - 1 - k)?;
    }
    Ok(())
}

fn run(rt: &impl Print, n: usize) -> io::Result<()>
    requires { n ≤ 45 }
{
    let a = make(rt, n)?;
    print!(rt; "\nrecords {n}")?;
    ends(rt, &a[..length(n)], n)?;
    println!(rt; "")
}

// The first `len` bytes of an archive with byte p changed: no archive.
fn spoilt(rt: &impl Print, archive: [u8; 2048], len: usize, p: usize, byte: u8) -> io::Result<()>
    requires { (len ≤ 2048) × (p < 2048) }
{
    let mut a = archive;
    a[p] = byte;
    print!(rt; "\nbytes {len}, byte {p}")?;
    visit(rt, &a[..len], 0, 1)?;
    visit(rt, &a[..len], 14, usize::MAX)?;
    println!(rt; "")
}

fn run_all(rt: &impl Print) -> io::Result<()> {
    for n in [0, 1, 2, 14, 15, 16, 30, 31] {
        run(rt, n)?;
    }
    let a = make(rt, 16)?;
    print!(rt; "\nall of 16")?;
    all(rt, &a[0..1536], 16)?;
    println!(rt; "")?;
    for len in [0, 511, 513, 1023, 1025, 1535, 1537, 2048] {
        spoilt(rt, a, len, 0, 1)?;
    }
    spoilt(rt, a, 1536, 0, 2)?;
    spoilt(rt, a, 1536, 700, 9)?;
    spoilt(rt, a, 1536, 1025, 0)?;
    spoilt(rt, a, 1536, 1025, 255)?;
    spoilt(rt, a, 1536, 1048, 0)?;
    spoilt(rt, a, 1536, 1533, 1)?;
    spoilt(rt, a, 1536, 1534, 0)
}

// A write that fails is left: there is nobody to tell.
fn main(rt: HostRuntime) {
    let _ = run_all(&check_vectors::Unheard(&rt));
}
