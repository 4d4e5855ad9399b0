// The test of an entries block in an archive, of all its records together.
#![tactic(auto)]

ghost use Rattle.std.specs.Prelude.{◌≡◌, ℕ, ◌≤◌, ◌<◌, ◌+◌, ◌*◌, ◌/◌, eqb, leb, length};
ghost use Rattle.codec.specs.Every.{every};
ghost use Rattle.header.specs.Header.{parse_header, table_at};
ghost use Rattle.entries.specs.Entries.{record_of};
ghost use Rattle.block_test.specs.BlockTest.{block_fits};
ghost use Rattle.block_test.specs.Sweep.{count_at, counts_test, phase_test, record_test, Looked, sound_test};

use checksum::ColumnSums;
use codec::Number;
use front_table::Allowed;

// The counts of station i in the fifteen places of a block are at most m. Joined by `|`, which takes one step less for each
// than comparing.
fn column_fits(block: &[u8], i: usize, m: u16) -> bool
    requires { (length block.now ≡ 512) × (i < 8) }
    ensures { result ≡ every 15 (λ (k : ℕ). leb (count_at block.now i k) m) }
{
    let mut above: u16 = 0;
    for k in 0..15 {
        above |= u16::get(block, 32 + k * 32 + 2 * i).saturating_sub(m);
    }
    above == 0
}

// Every count in the fifteen places of a block is at most t, and 0 for stations n and above. The stations are vectorised.
fn counts_fit(block: &[u8], n: u8, t: u16) -> bool
    requires { length block.now ≡ 512 }
    ensures { result ≡ counts_test n t block.now }
{
    let mut ok = true;
    for j in 0..8u8 {
        ok &= column_fits(block, usize::from(j), clock::ceiling(j, n, t));
    }
    ok
}

// What is seen of the first `count` records of a block, gathered with no branch: where first bytes are wrong, spare bytes and phases,
// each joined by `|`. Of their stations' own counts the least is kept, or 1.
#[derive(Clone, Copy)]
struct Seen<'a> {
    known: &'a [u32; 256],
    block: &'a [u8],
    count: usize,
    wrong: u32,
    least: u16,
    spare: u32,
    phases: u32,
    ghost whole: { length block.now ≡ 512 },
    ghost looked: { Looked known.now block.now count wrong least spare phases },
}

impl<'a> Seen<'a> {
    // What is seen of no record.
    fn none(known: &'a [u32; 256], block: &'a [u8]) -> Seen<'a>
        requires { length block.now ≡ 512 }
        ensures { (result.known.now ≡ known.now) × (result.block.now ≡ block.now) × (result.count ≡ 0) }
    {
        Seen {
            known,
            block,
            count: 0,
            wrong: 0,
            least: 1,
            spare: 0,
            phases: 0,
        }
    }

    // The same of the first `end` records.
    fn up_to(self, end: usize) -> Seen<'a>
        requires { (self.count ≤ end) × (end ≤ 15) }
        ensures { (result.known.now ≡ self.entry.known.now) × (result.block.now ≡ self.entry.block.now) × (result.count ≡ end) }
    {
        let mut wrong = self.wrong;
        let mut least = self.least;
        let mut spare = self.spare;
        let mut phases = self.phases;
        for k in self.count..end {
            let o = entries::start_of(k);
            let part = &self.block[o..o + 32];
            let x = u32::get(part, 0);
            wrong |= front_table::differ(self.known, x);
            least = u16::get(part, 16 + 2 * (front_table::place_of(x) % 8)).min(least);
            spare |= u32::get(part, 12);
            phases |= u32::get(part, 4);
        }
        Seen {
            known: self.known,
            block: self.block,
            count: end,
            wrong,
            least,
            spare,
            phases,
        }
    }

    // The first `end` records are well made and name only what the header has, but for their counts. No phase is above all of
    // them joined, so that they are looked at one by one only where that is too high.
    fn fit(self, end: usize) -> bool
        requires { (self.count ≤ end) × (end ≤ 15) }
        ensures { result ≡ every end (λ (k : ℕ). record_test self.entry.known.now (record_of self.entry.block.now k)) }
    {
        let seen = self.up_to(end);
        let fit = (seen.wrong == 0) & (1 <= seen.least) & (seen.spare == 0);
        if seen.phases <= clock::LAST_PHASE {
            return fit;
        }
        fit & phases_fit(self.block, end)
    }
}

// The phases of the first `count` records, one by one.
fn phases_fit(block: &[u8], count: usize) -> bool
    requires { (length block.now ≡ 512) × (count ≤ 15) }
    ensures { result ≡ every count (λ (k : ℕ). phase_test (record_of block.now k)) }
{
    let mut ok = true;
    for k in 0..count {
        let o = entries::start_of(k);
        ok &= u32::get(&block[o..o + 32], 4) <= clock::LAST_PHASE;
    }
    ok
}

// The records of a full block, but for their counts, zeros behind them, and the check. Columns of the check and records are
// taken in turn, so that the processor adds up vectors while it looks up single numbers.
fn full_fits(known: &[u32; 256], block: &[u8]) -> bool
    requires { length block.now ≡ 512 }
    ensures { result ≡ sound_test known.now block.now 15 }
{
    let mut sums = ColumnSums::new();
    let mut seen = Seen::none(known, block);
    for t in 0..3 {
        sums.fill(block, t * 8, t * 8 + 8);
        seen = seen.up_to(t * 4 + 4);
    }
    sums.fill(block, 24, 32);
    seen.fit(15) & checksum::sealed_columns(block, &sums)
}

// The first `count` records of a block, but for their counts, zeros behind them, and the check.
fn sound(known: &[u32; 256], block: &[u8], count: usize) -> bool
    requires { (length block.now ≡ 512) × (1 ≤ count) × (count ≤ 15) }
    ensures { result ≡ sound_test known.now block.now count }
{
    if count == 15 {
        return full_fits(known, block);
    }
    Seen::none(known, block).fit(count)
        & (entries::tail_fits(block, count) & checksum::sealed(block))
}

// An entries block in its place.
pub fn block_fits(allowed: &Allowed, number: usize, last: bool, block: &[u8]) -> bool
    requires { length block.now ≡ 512 }
    ensures { result ≡ block_fits (parse_header allowed.now.head.now) (table_at 8 allowed.now.head.now 32) number last block.now }
{
    if !entries::fields_fit(block) {
        return false;
    }
    let head = allowed.head;
    let count = entries::count_of(block);
    (u32::get(block, 4) as usize == number)
        & ((last | (count == 15))
            & (sound(&allowed.fronts, block, count)
                & counts_fit(block, head[1], u16::get(head, 2))))
}
