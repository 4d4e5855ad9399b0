// The verdict on two 32-byte records.
#![tactic(auto)]

ghost use Rattle.std.specs.Prelude.{◌≡◌};
ghost use Rattle.verdict.specs.Compare.{verdict_on};

use clock::Verdict;
use refusals::Refusal;

// How the first event stands to the second, by timestamp order: malformed, then different phases, or the verdict. Both lengths are tested at
// once, so that what follows has no test of a length between the tests of the two records.
pub fn compare(first: &[u8], second: &[u8]) -> Result<Verdict, Refusal>
    ensures { result ≡ verdict_on first.now second.now }
{
    if (first.len() != 32) | (second.len() != 32) {
        return Err(Refusal::Malformed);
    }
    if !record::well_made(first) {
        return Err(Refusal::Malformed);
    }
    if !record::well_made(second) {
        return Err(Refusal::Malformed);
    }
    let a = record::load(first);
    let b = record::load(second);
    if a.phase != b.phase {
        return Err(Refusal::DifferentPhases);
    }
    Ok(clock::compare(a.counts, b.counts))
}
