// The records that numbers name, copied out of the blocks that hold them: each such block is fetched once, however many of its records are wanted and
// however often.
#![tactic(auto)]

ghost use Rattle.std.specs.Prelude.{◌≡◌, true, false, cond, ℕ, ◌+◌, ◌*◌, ◌/◌, ◌%◌, ◌≤◌, ◌<◌, length, MatchOption};
ghost use Rattle.codec.specs.Splice.{splice};
ghost use Rattle.entries.specs.Entries.{record_of};
ghost use Rattle.fetch.specs.Fetch.{holds as holds_record, copied, wanted, fetched};

use archive::Archive;
use codec::Number;

// A block holds record k.
fn holds(block: &[u8], k: u64) -> bool
    requires { length block.now ≡ 512 }
    ensures { result ≡ holds_record block.now k }
{
    let number = u64::from(u32::get(block, 4));
    let count = entries::count_of(block) as u64;
    (number == k / 15 + 1) & (k % 15 < count)
}

// Record k, where the block holds it, is copied to a place of the copies.
fn copy_held(block: &[u8], k: u64, at: usize, copies: &mut [u8])
    requires { (length block.now ≡ 512) × (at + 32 ≤ length copies.old) }
    ensures { copies.new ≡ cond (holds_record block.now k) (splice copies.old at (record_of block.now (k % 15))) copies.old }
{
    if holds(block, k) {
        let o = entries::start_of((k % 15) as usize);
        codec::put_bytes(copies, at, &block[o..o + 32]);
    }
}

// The collecting step: of a block and the count so far. Every wanted record that the block holds is copied to the places of its numbers.
pub fn collect(block: &[u8], numbers: &[u64], copies: &mut [u8], count: usize) -> usize
    requires { (length block.now ≡ 512) × (length numbers.now * 32 ≤ length copies.old) × (count < 18446744073709551615) }
    ensures { (result ≡ count + 1) × (copies.new ≡ copied block.now numbers.now copies.old (length numbers.now)) }
{
    for (i, k) in numbers.iter().enumerate() {
        copy_held(block, *k, i * 32, copies);
    }
    count + 1
}

// The first wanted block from `from` on, if there is one before `until`.
fn next_block(numbers: &[u64], from: usize, until: usize) -> Option<usize>
    requires { from ≤ until }
    ensures { MatchOption result
        ((b : ℕ) → from ≤ b → b < until → wanted numbers.now b ≡ false)
        (λ next. (from ≤ next) × (next < until) × (wanted numbers.now next ≡ true) × ((b : ℕ) → from ≤ b → b < next → wanted numbers.now b ≡ false)) }
{
    let mut best = until;
    for k in numbers {
        let b = (*k / 15) as usize;
        if from <= b {
            best = best.min(b);
        }
    }
    if best < until { Some(best) } else { None }
}

// All steps, one for each wanted block, rising: the last count.
pub fn collect_all(archive: Archive, numbers: &[u64], copies: &mut [u8]) -> usize
    requires { length numbers.now * 32 ≤ length copies.old }
    ensures { (result ≡ (fetched archive.entry.bytes.now numbers.now copies.old).count) × (copies.new ≡ (fetched archive.entry.bytes.now numbers.now copies.old).copies) }
{
    let blocks = archive.bytes.len() / checksum::BLOCK - 1;
    let mut count = 0;
    let mut from = 0;
    while let Some(b) = next_block(numbers, from, blocks) {
        count = collect(events::block_at(archive.bytes, b), numbers, copies, count);
        from = b + 1;
    }
    count
}
