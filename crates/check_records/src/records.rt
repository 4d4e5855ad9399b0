// Records.
use check_vectors::{Left, Line, Spaced};
use record::Record;
use std::io::Result;

// The record of a line's thirteen numbers behind the call.
pub fn record_of(s: Line) -> Record {
    Record {
        kind: s.byte(1),
        station: s.byte(2),
        peer: s.byte(3),
        phase: s.word(4),
        register: s.word(5),
        counts: s.halves(6),
    }
}

// Its bytes, and zeros.
pub fn made(s: Line) -> [u8; 512] {
    let mut d = [0u8; 512];
    record::store(&mut d, record_of(s));
    d
}

pub fn fits(d: &[u8]) -> usize {
    if d.len() < 32 {
        return 2;
    }
    usize::from(record::record_fits(record::load(d)))
}

// A record is stored in the first 32 of 40 bytes 7, and loaded again.
pub fn trip(rt: &impl Print, s: Line) -> Result<()> {
    let mut d = [7u8; 40];
    record::store(&mut d, record_of(s));
    let answer = refusals::told(check_vectors::record_answer(&d[0..32]));
    println!(rt; ": {answer}, {}", Left(&d))?;
    let r = record::load(&d);
    println!(rt;
        "kind, station and peer {} {}: {}",
        r.kind, r.station, r.peer
    )?;
    println!(rt; "phase and register {}: {}", r.phase, r.register)?;
    println!(rt; "counts:{}", Spaced(&r.counts))
}
