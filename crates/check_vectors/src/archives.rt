// Records and blocks that are written where there is room.
use header::Header;
use record::Record;
use refusals::Refusal;

// Puts a record at place k.
pub fn place(d: &mut [u8], k: usize, r: Record) {
    if k < d.len() / 32 {
        let o = k * 32;
        record::store(&mut d[o..o + 32], r);
    }
}

// Writes records to entries block b, from 1.
pub fn block(a: &mut [u8], b: u32, records: &[u8]) -> Result<(), Refusal> {
    let k = b as usize;
    if k < a.len() / 512 {
        let o = k * 512;
        return entries::write(b, records, &mut a[o..o + 512]);
    }
    Ok(())
}

// Writes an archive of records.
pub fn archive(a: &mut [u8], h: Header, limits: [[u8; 8]; 8], records: &[u8]) {
    let _ = header::write(h, limits, a);
    for (b, part) in (1..=u32::MAX).zip(records.chunks(480)) {
        let _ = block(a, b, part);
    }
}
