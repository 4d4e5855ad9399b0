// The records of a tested archive as events: one by its number, those of a block, and one after the other by their places.
#![tactic(auto)]

ghost use Rattle.std.specs.Prelude.{◌≡◌, ◌+◌, ◌*◌, ◌-◌, ◌<◌, ◌≤◌, length, get_or, MatchOption};
ghost use Rattle.std.specs.Iterator.{at_most};
ghost use Rattle.record.specs.Record.{parse_record};
ghost use Rattle.entries.specs.Entries.{record_of};
ghost use Rattle.archive.specs.Archive.{block_of, blocks, records as records_of, record_at};
ghost use Rattle.events.specs.Events.{event_at};

use archive::Archive;
use codec::Number;
use record::Record;

// Record k, read with no test of its own.
pub fn event_at(archive: Archive, k: usize) -> Record
    requires { k < records_of archive.bytes.now }
    ensures { result ≡ event_at archive.entry.bytes.now k }
{
    record::load(archive.record(k))
}

// Entries block b of any bytes, as a part of them.
pub fn block_at<'a>(a: &'a [u8], b: usize) -> &'a [u8]
    requires { b < blocks a.now }
    ensures { result.now ≡ block_of a.now b }
{
    let o = (b + 1) * checksum::BLOCK;
    &a[o..o + checksum::BLOCK]
}

// Record k of a block.
pub fn event_in(block: &[u8], k: usize) -> Record
    requires { (length block.now ≡ 512) × (k < 15) }
    ensures { result ≡ parse_record (record_of block.now k) }
{
    let o = entries::start_of(k);
    record::load(&block[o..o + 32])
}

// The count of station s in record k of a block.
pub fn count_in(block: &[u8], k: usize, s: usize) -> u16
    requires { (length block.now ≡ 512) × (k < 15) × (s < 8) }
    ensures { result ≡ get_or (parse_record (record_of block.now k)).counts s 0 }
{
    let o = entries::start_of(k);
    u16::get(&block[o..o + 32], 16 + s * 2)
}

// Where a record stands: its number, its block and its place there. A pass over all records counts all three, so that no number is divided.
#[derive(Clone, Copy)]
pub struct Place {
    pub number: usize,
    pub block: usize,
    pub at: usize,
    ghost stands: { number ≡ block * 15 + at },
    ghost low: { at < 15 },
}

// The place of record 0.
pub fn first_place() -> Place
    ensures { result.number ≡ 0 }
{
    Place {
        number: 0,
        block: 0,
        at: 0,
    }
}

// The place of the next record.
pub fn next_place(p: Place) -> Place
    requires { p.number < 18446744073709551615 }
    ensures { result.number ≡ p.number + 1 }
{
    let number = p.number + 1;
    if p.at == 14 {
        return Place {
            number,
            block: p.block + 1,
            at: 0,
        };
    }
    Place {
        number,
        block: p.block,
        at: p.at + 1,
    }
}

// The places of the records of an archive, one after the other.
#[derive(Clone, Copy)]
pub struct Places {
    pub first: Place,
    pub end: usize,
}

impl Places {
    // Those of all records.
    pub fn of(archive: Archive) -> Places
        ensures { (result.first.number ≡ 0) × (result.end ≡ records_of archive.entry.bytes.now) }
    {
        Places {
            first: first_place(),
            end: archive.records(),
        }
    }
}

impl Iterator for Places {
    type Item = Place;

    // The first place that was left, if it is before the end.
    ghost next_gives = { λ s r t. (t.end ≡ s.end) × MatchOption r
        (s.end ≤ s.first.number)
        (λ p. (p.number ≡ s.first.number) × (p.number < s.end) × (t.first.number ≡ p.number + 1)) };

    ghost remaining = { λ s. at_most (s.end - s.first.number) };

    fn next(&mut self) -> Option<Place> {
        let place = self.first;
        if self.end <= place.number {
            return None;
        }
        self.first = next_place(place);
        Some(place)
    }
}

// The 32 bytes of the record at a place.
pub fn part_of<'a>(archive: Archive<'a>, p: Place) -> &'a [u8]
    requires { p.number < records_of archive.bytes.now }
    ensures { result.now ≡ record_at archive.entry.bytes.now p.number }
{
    let o = (p.block + 1) * checksum::BLOCK + entries::start_of(p.at);
    &archive.bytes[o..o + 32]
}

// The same record as an event.
pub fn event_of(archive: Archive, p: Place) -> Record
    requires { p.number < records_of archive.bytes.now }
    ensures { result ≡ event_at archive.entry.bytes.now p.number }
{
    record::load(part_of(archive, p))
}

// Its count of station s.
pub fn count_of(archive: Archive, p: Place, s: usize) -> u16
    requires { (p.number < records_of archive.bytes.now) × (s < 8) }
    ensures { result ≡ get_or (event_at archive.entry.bytes.now p.number).counts s 0 }
{
    u16::get(part_of(archive, p), 16 + s * 2)
}
