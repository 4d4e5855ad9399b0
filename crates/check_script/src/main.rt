// Prints what each line of the input says, and then lines of turnover's output with values at their ends.
#![tactic(auto)]

use std::io::Read;
use turnover_input::command::Command;
use turnover_input::line::Line;
use turnover_output::answer;

// The standard output.
const STDOUT: i32 = 1;

fn value(x: u64) {
    io::write_all(STDOUT, b" ");
    io::print_decimal(STDOUT, x);
}

// A word, and its numbers.
fn told(word: &[u8], numbers: &[u64]) {
    io::write_all(STDOUT, word);
    for x in numbers {
        value(*x);
    }
    io::write_all(STDOUT, b"\n");
}

fn show(command: Option<Command>) {
    match command {
        Some(Command::Net { n, t }) => told(b"Net", &[u64::from(n), u64::from(t)]),
        Some(Command::Allow { station, allowance }) => {
            told(b"Allow", &[u64::from(station), u64::from(allowance)])
        }
        Some(Command::Link { from, to, limit }) => {
            told(b"Link", &[u64::from(from), u64::from(to), u64::from(limit)])
        }
        Some(Command::Enter { station, register }) => {
            told(b"Enter", &[u64::from(station), u64::from(register)])
        }
        Some(
            Command::Send {
                station,
                peer,
                register,
            },
        ) => told(
            b"Send",
            &[u64::from(station), u64::from(peer), u64::from(register)],
        ),
        Some(Command::Recv { station, peer }) => {
            told(b"Recv", &[u64::from(station), u64::from(peer)])
        }
        Some(Command::Start { station }) => told(b"Start", &[u64::from(station)]),
        None => told(b"Bad", &[]),
    }
}

// The bytes of one read.
fn feed(line: &mut Line, bytes: &[u8]) {
    let mut rest = bytes;
    while !rest.is_empty() {
        let Some(left) = line.fill(rest) else {
            return;
        };
        show(line.command());
        *line = Line::new();
        rest = left;
    }
}

// Reads of few bytes, so that most lines come in parts. Nothing says that the input ends, so the reads are counted, up to a number that no run
// gets to.
fn commands(input: &mut impl Read) {
    let mut line = Line::new();
    let mut buf = [0u8; 7];
    for _ in 0..u64::MAX {
        match input.read(&mut buf) {
            Ok(0) | Err(_) => break,
            Ok(n) => feed(&mut line, &buf[..n]),
        }
    }
    if !line.is_empty() {
        show(line.command());
    }
}

// The whole buffer, so that what a line leaves is seen too.
fn present(out: &[u8], end: usize) {
    io::write_all(STDOUT, out);
    value(end as u64);
    io::write_all(STDOUT, b"\n");
}

fn entry(number: u64, phase: u32, station: u8, counts: [u16; 8], n: u8) {
    let mut out = [b'.'; 99];
    let end = answer::entry(&mut out, 5, number, phase, station, counts, n);
    present(&out, end);
}

fn receipt(number: u64, phase: u32, station: u8, counts: [u16; 8], n: u8, news: u8) {
    let mut out = [b'.'; 99];
    let end = answer::receipt(&mut out, 5, number, phase, station, counts, n, news);
    present(&out, end);
}

fn mode(number: u64, phase: u32, station: u8, mode: u8) {
    let mut out = [b'.'; 99];
    let end = answer::mode(&mut out, 5, number, phase, station, mode);
    present(&out, end);
}

fn refused(number: u64, refusal: u8) {
    let mut out = [b'.'; 99];
    let end = answer::refused(&mut out, 5, number, refusal);
    present(&out, end);
}

fn others(refusal: u8) {
    let mut out = [b'.'; 99];
    let end = answer::setup_refused(&mut out, 5, refusal);
    present(&out, end);
    let last = answer::bad(&mut out, 5);
    present(&out, last);
}

fn entries() {
    let mixed = [0u16, 1, 9, 10, 99, 100, 65534, 65535];
    for n in 0u8..11 {
        entry(u64::from(n), 999999, n, mixed, n);
    }
    entry(u64::MAX, u32::MAX, 255, [65535; 8], 255);
    entry(18446744073709551609, 1000000, 100, [10000; 8], 8);
    entry(1, 0, 0, [0; 8], 1);
    entry(9, 9, 9, [9; 8], 2);
    entry(10, 10, 10, [10; 8], 3);
    entry(1234567890, 99999, 7, [12345; 8], 4);
}

fn receipts() {
    let mixed = [0u16, 1, 9, 10, 99, 100, 65534, 65535];
    for n in 0u8..11 {
        receipt(u64::from(n), 999999, n, mixed, n, n);
    }
    receipt(u64::MAX, u32::MAX, 255, [65535; 8], 255, 255);
    receipt(4, 0, 1, [2, 1, 0, 0, 0, 0, 0, 0], 2, 1);
    receipt(10, 1, 0, [1, 1, 0, 0, 0, 0, 0, 0], 2, 1);
    receipt(99, 9, 9, [9; 8], 8, 99);
    receipt(100, 10, 10, [10; 8], 8, 100);
}

fn modes() {
    for m in 0u8..5 {
        mode(100 + u64::from(m), 999999, m, m);
    }
    mode(u64::MAX, u32::MAX, 255, 255);
    mode(3, 0, 1, 1);
}

fn refusals() {
    for k in 0u8..14 {
        refused(99999 + u64::from(k), k);
        others(k);
    }
    refused(u64::MAX, 255);
    others(255);
}

fn main(rt: HostRuntime) {
    let mut input = rt.reader();
    commands(&mut input);
    entries();
    receipts();
    modes();
    refusals();
}
