// The entries block of an archive: 512 bytes with one to fifteen records.
//
// A block is lent as plain bytes, and its length is required of each caller, who proves it of the part that is lent. A type for it
// would be no plainer: the check and the numbers in a block are read from bytes.
#![tactic(auto)]

ghost use Rattle.std.specs.Prelude.{◌≡◌, ◌≤◌, ◌<◌, ◌*◌, length};
ghost use Rattle.entries.specs.Starts.{record_start};
ghost use Rattle.entries.specs.Entries.{count_of, fields_fit, front_fits, records_fit, tail_fits, body_fits, well_made_entries, image_entries, entries_fit, write_entries, read_entries, read_record};
ghost use Rattle.refusals.specs.Numbers.{told};

use codec::Number;
use refusals::Refusal;

// What a block reader finds: the block's number and its count of records.
#[derive(Clone, Copy, Debug, PartialEq, Eq)]
pub struct EntriesRead {
    pub number: u32,
    pub count: u8,
}

// Where record k starts.
pub fn start_of(k: usize) -> usize
    requires { k < 15 }
    ensures { result ≡ record_start k }
{
    16 + 32 * k
}

// The first `count` records of 32 bytes each are well made.
fn records_fit(rs: &[u8], count: usize) -> bool
    requires { (count * 32 ≤ length rs.now) × (count ≤ 15) }
    ensures { result ≡ records_fit rs.now count }
{
    for k in 0..count {
        if !record::well_made(&rs[k * 32..k * 32 + 32]) {
            return false;
        }
    }
    true
}

// The fields and the spare bytes before the records.
pub fn fields_fit(s: &[u8]) -> bool
    requires { length s.now ≡ 512 }
    ensures { result ≡ fields_fit s.now }
{
    (s[0] == 2)
        & ((1 <= s[1])
            & ((s[1] <= 15)
                & ((u16::get(s, 2) == 0) & ((1 <= u32::get(s, 4)) & codec::zeros(&s[8..16])))))
}

fn front_fits(s: &[u8]) -> bool
    requires { length s.now ≡ 512 }
    ensures { result ≡ front_fits s.now }
{
    checksum::sealed(s) & fields_fit(s)
}

// The count of records of a block.
pub fn count_of(s: &[u8]) -> usize
    requires { length s.now ≡ 512 }
    ensures { result ≡ count_of s.now }
{
    usize::from(s[1])
}

// Zeros follow the records.
pub fn tail_fits(s: &[u8], count: usize) -> bool
    requires { (length s.now ≡ 512) × (1 ≤ count) × (count ≤ 15) }
    ensures { result ≡ tail_fits s.now count }
{
    let end = start_of(count - 1) + 32;
    codec::zeros(&s[end..496]) & codec::zeros(&s[496..510])
}

// The records are well made, and zeros follow them.
fn body_fits(s: &[u8], count: usize) -> bool
    requires { (length s.now ≡ 512) × (1 ≤ count) × (count ≤ 15) }
    ensures { result ≡ body_fits s.now count }
{
    let end = start_of(count - 1) + 32;
    records_fit(&s[16..end], count) & tail_fits(s, count)
}

// The bytes are an entries block.
pub fn well_made(s: &[u8]) -> bool
    ensures { result ≡ well_made_entries s.now }
{
    if s.len() != checksum::BLOCK {
        return false;
    }
    if !front_fits(s) {
        return false;
    }
    body_fits(s, count_of(s))
}

// Makes 512 bytes an entries block.
fn store(d: &mut [u8], number: u32, rs: &[u8])
    requires { (length d.old ≡ 512) × (length rs.now ≤ 480) }
    ensures { d.new ≡ image_entries number rs.now }
{
    codec::put_bytes(d, 0, &[2, (rs.len() / 32) as u8, 0, 0]);
    number.put(d, 4);
    codec::put_zeros(d, 8, 8);
    codec::put_bytes(d, 16, rs);
    codec::put_zeros(d, 16 + rs.len(), 494 - rs.len());
    checksum::seal(d);
}

fn entries_fit(number: u32, rs: &[u8]) -> bool
    requires { length rs.now ≤ 480 }
    ensures { result ≡ entries_fit number rs.now }
{
    (1 <= number) & ((rs.len() % 32 == 0) & records_fit(rs, rs.len() / 32))
}

// Writes an entries block into the first 512 bytes of a buffer, or is refused: `NoSuchRecord`, `Malformed`, `BufferLength`.
#[tactic(auto, unfolding(crate::specs::Entries::write_entries))]
pub fn write(number: u32, rs: &[u8], d: &mut [u8]) -> Result<(), Refusal>
    ensures { (told result ≡ (write_entries number rs.now d.old).answer) × (d.new ≡ (write_entries number rs.now d.old).buffer) }
{
    if rs.is_empty() || 480 < rs.len() {
        return Err(Refusal::NoSuchRecord);
    }
    if !entries_fit(number, rs) {
        return Err(Refusal::Malformed);
    }
    if d.len() < checksum::BLOCK {
        return Err(Refusal::BufferLength);
    }
    store(&mut d[0..checksum::BLOCK], number, rs);
    Ok(())
}

// The number and the count of records of an entries block, or `Malformed`.
#[tactic(auto, unfolding(crate::specs::Entries::read_entries))]
pub fn read(s: &[u8]) -> Result<EntriesRead, Refusal>
    ensures { result ≡ read_entries s.now }
{
    if !well_made(s) {
        return Err(Refusal::Malformed);
    }
    Ok(EntriesRead {
        number: u32::get(s, 4),
        count: s[1],
    })
}

// Copies record k into the first 32 bytes of a buffer, or is refused: `Malformed`, `NoSuchRecord`, `BufferLength`.
#[tactic(auto, unfolding(crate::specs::Entries::read_record))]
pub fn read_record(s: &[u8], k: usize, d: &mut [u8]) -> Result<(), Refusal>
    ensures { (told result ≡ (read_record s.now k d.old).answer) × (d.new ≡ (read_record s.now k d.old).buffer) }
{
    if !well_made(s) {
        return Err(Refusal::Malformed);
    }
    if count_of(s) <= k {
        return Err(Refusal::NoSuchRecord);
    }
    if d.len() < 32 {
        return Err(Refusal::BufferLength);
    }
    let o = start_of(k);
    codec::put_bytes(d, 0, &s[o..o + 32]);
    Ok(())
}
