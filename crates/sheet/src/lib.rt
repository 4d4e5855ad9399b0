// The verdicts on many pairs of records of an archive in one go. The named records are copied out first, each block that holds some fetched once; then
// each pair is compared from the copies alone. The archive is tested once.
#![tactic(auto)]

ghost use Rattle.std.specs.Prelude.{◌≡◌, true, ◌+◌, ◌*◌, ◌≤◌, ◌<◌, length};
ghost use Rattle.codec.specs.Splice.{splice};
ghost use Rattle.clock.specs.Numbers.{order_number};
ghost use Rattle.sheet.specs.Sheet.{all_named, event_of, pair_verdict, pair_verdicts, pairs_answer, sheet_after, Answers};
ghost use Rattle.sheet.specs.Copies.{Sound};

use archive::Archive;
use phase_order::Event;
use refusals::Refusal;

// So many numbers are in a sheet at most, and 32 bytes stand for each.
pub const NUMBERS: usize = 128;

const COPIES: usize = 4096;

// Whole pairs, and each number is of a record.
fn all_named(archive: Archive, numbers: &[u64]) -> bool
    ensures { result ≡ all_named archive.entry.bytes.now numbers.now }
{
    if numbers.len() % 2 != 0 {
        return false;
    }
    let n = archive.records() as u64;
    for number in numbers {
        if n <= *number {
            return false;
        }
    }
    true
}

// Copies of so many records, from which verdicts are taken.
#[derive(Clone, Copy)]
pub struct Copies<'a> {
    pub bytes: &'a [u8],
    pub number: usize,
    ghost sound: { Sound bytes.now number },
}

impl<'a> Copies<'a> {
    // The event of copy i.
    fn event(self, i: usize) -> Event
        requires { i < self.number }
        ensures { result.record ≡ event_of self.entry.bytes.now i }
    {
        let o = i * 32;
        let record = record::load(&self.bytes[o..o + 32]);
        Event { record }
    }

    // The number of the verdict on pair i, from the copies alone.
    fn pair_verdict(self, archive: Archive, i: usize) -> u8
        requires { i * 2 + 2 ≤ self.number }
        ensures { result ≡ order_number (pair_verdict archive.entry.bytes.now self.entry.bytes.now i) }
    {
        let x = self.event(i * 2);
        let y = self.event(i * 2 + 1);
        u8::from(phase_order::verdict_between(archive, x, y))
    }
}

// The verdicts on n pairs, one place each; the places behind are left.
fn put_verdicts(archive: Archive, copies: Copies, n: usize, answers: &mut [u8])
    requires { (n * 2 ≤ copies.number) × (n ≤ length answers.old) }
    ensures { answers.new ≡ splice answers.old 0 (pair_verdicts archive.entry.bytes.now copies.entry.bytes.now n) }
{
    for i in 0..n {
        answers[i] = copies.pair_verdict(archive, i);
    }
}

// Of a tested archive that is well kept, whose records are named: `BufferLength`, or how many blocks were fetched.
fn answer_pairs(archive: Archive, numbers: &[u64], answers: &mut [u8]) -> Result<usize, Refusal>
    requires { (all_named archive.bytes.now numbers.now ≡ true) × (length numbers.now ≤ 128) }
    ensures { (result ≡ pairs_answer archive.entry.bytes.now numbers.now (length answers.old)) × (answers.new ≡ sheet_after archive.entry.bytes.now numbers.now answers.old (pairs_answer archive.entry.bytes.now numbers.now (length answers.old))) }
{
    let n = numbers.len() / 2;
    if answers.len() < n {
        return Err(Refusal::BufferLength);
    }
    let mut bytes = [0u8; COPIES];
    let count = fetch::collect_all(archive, numbers, &mut bytes);
    let copies = Copies {
        bytes: &bytes,
        number: numbers.len(),
    };
    put_verdicts(archive, copies, n, answers);
    Ok(count)
}

// The verdict on each pair of record numbers, in the first places of a list: `SheetTooLong`, `Malformed`, `NoSuchRecord`, `IllKept`, `BufferLength`,
// or how many blocks were fetched for the records.
pub fn answer(bytes: &[u8], numbers: &[u64], answers: &mut [u8]) -> Result<usize, Refusal>
    ensures { Answers bytes.now numbers.now answers.old answers.new result }
{
    if NUMBERS < numbers.len() {
        return Err(Refusal::SheetTooLong);
    }
    let archive = Archive::open(bytes)?;
    if !all_named(archive, numbers) {
        return Err(Refusal::NoSuchRecord);
    }
    if !well_kept::test(archive) {
        return Err(Refusal::IllKept);
    }
    answer_pairs(archive, numbers, answers)
}
