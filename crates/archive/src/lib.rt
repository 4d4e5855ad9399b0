// A whole archive: its test, its records, and a found record as a part of the caller's own bytes.
#![tactic(auto)]

ghost use Rattle.std.specs.Prelude.{◌≡◌, true, false, ◌≤◌, ◌+◌, ◌*◌, length, IfOk, IfErr};
ghost use Rattle.codec.specs.Num.{AreBytes};
ghost use Rattle.header.specs.Header.{parse_header, table_at};
ghost use Rattle.archive.specs.Archive.{blocks_fit, archive_test, records as records_of, record_at, count_records, find_record, found_record};
ghost use Rattle.refusals.specs.Numbers.{told};
ghost use Rattle.refusals.specs.declared.Refusal.TheVariants.{Malformed};

use front_table::Allowed;
use refusals::Refusal;

// The n entries blocks behind the header fit.
fn blocks_fit(a: &[u8], allowed: &Allowed, n: usize) -> bool
    requires { (n + 1) * 512 ≤ length a.now }
    ensures { result ≡ blocks_fit (parse_header allowed.now.head.now) (table_at 8 allowed.now.head.now 32) a.now n }
{
    for b in 0..n {
        let o = (b + 1) * checksum::BLOCK;
        let block = &a[o..o + checksum::BLOCK];
        if !block_test::block_fits(allowed, b + 1, b + 1 == n, block) {
            return false;
        }
    }
    true
}

// The bytes are an archive. Kept a call of its own, so that where a program tests the same bytes again the compiler sees that it need not.
#[inline(never)]
pub fn test(a: &[u8]) -> bool
    ensures { result ≡ archive_test a.now }
{
    if a.len() % checksum::BLOCK != 0 {
        return false;
    }
    if a.len() < checksum::BLOCK {
        return false;
    }
    let head = &a[0..checksum::BLOCK];
    if !header::well_made(head) {
        return false;
    }
    // A header alone needs no table.
    let n = a.len() / checksum::BLOCK - 1;
    if n == 0 {
        return true;
    }
    blocks_fit(a, &Allowed::by(head), n)
}

// The 32 bytes of record k, as a part of the archive; an empty part where the archive has no such block.
#[tactic(auto, unfolding(crate::specs::Archive::record_at))]
pub fn record_at<'a>(a: &'a [u8], k: usize) -> &'a [u8]
    ensures { result.now ≡ record_at a.now k }
{
    let b = k / 15 + 1;
    if a.len() / checksum::BLOCK <= b {
        return &a[0..0];
    }
    let o = b * checksum::BLOCK + entries::start_of(k % 15);
    &a[o..o + 32]
}

// Bytes that are an archive: they were tested once, in `open`.
#[derive(Clone, Copy)]
pub struct Archive<'a> {
    pub bytes: &'a [u8],
    ghost tested: { archive_test bytes.now ≡ true },
    ghost fit: { AreBytes bytes.now },
}

impl<'a> Archive<'a> {
    // The archive that the bytes are, or `Malformed`.
    pub fn open(bytes: &'a [u8]) -> Result<Archive<'a>, Refusal>
        ensures ok { IfOk result (λ archive. archive.bytes.now ≡ bytes.now) }
        ensures err { IfErr result (λ refusal. (refusal ≡ Malformed) × (archive_test bytes.now ≡ false)) }
    {
        if !test(bytes) {
            return Err(Refusal::Malformed);
        }
        Ok(Archive { bytes })
    }

    // How many records it has.
    pub fn records(self) -> usize
        ensures { result ≡ records_of self.entry.bytes.now }
    {
        let n = self.bytes.len() / checksum::BLOCK - 1;
        if n == 0 {
            return 0;
        }
        let o = n * checksum::BLOCK;
        (n - 1) * 15 + entries::count_of(&self.bytes[o..o + checksum::BLOCK])
    }

    // The 32 bytes of record k; an empty part where it has no such block.
    pub fn record(self, k: usize) -> &'a [u8]
        ensures { result.now ≡ record_at self.entry.bytes.now k }
    {
        record_at(self.bytes, k)
    }
}

// How many records there are, or `Malformed`.
#[tactic(auto, unfolding(crate::specs::Archive::count_records))]
pub fn count(a: &[u8]) -> Result<usize, Refusal>
    ensures { result ≡ count_records a.now }
{
    Ok(Archive::open(a)?.records())
}

// Whether there is a record k: if not, `Malformed` or `NoSuchRecord`.
#[tactic(auto, unfolding(crate::specs::Archive::find_record))]
pub fn find(a: &[u8], k: usize) -> Result<(), Refusal>
    ensures { told result ≡ find_record a.now k }
{
    if Archive::open(a)?.records() <= k {
        return Err(Refusal::NoSuchRecord);
    }
    Ok(())
}

// Record k as the caller's own 32 bytes; an empty part where `find` refuses.
#[tactic(auto, unfolding(crate::specs::Archive::found_record))]
pub fn found<'a>(a: &'a [u8], k: usize) -> &'a [u8]
    ensures { result.now ≡ found_record a.now k }
{
    if find(a, k).is_err() {
        return &a[0..0];
    }
    record_at(a, k)
}
