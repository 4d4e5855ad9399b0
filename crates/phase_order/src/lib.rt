// The order of two records of any phases of an archive. Which stations the earlier record reaches is told phase by phase, and a phase in which
// none joins is passed over: one pass finds the next phase in which a station that is not reached knows one that is, and one more has the last
// timestamps of that phase and those behind it.
#![tactic(auto)]

ghost use Rattle.std.specs.Prelude.{◌≡◌, List, true, false, cond, ℕ, ◌+◌, ◌*◌, ◌/◌, ◌%◌, ◌≤◌, ◌<◌, eqb, length, get_or, MatchOption};
ghost use Rattle.record.specs.declared.Record.{Record as Recorded};
ghost use Rattle.archive.specs.Archive.{records as records_of};
ghost use Rattle.events.specs.Events.{event_at, own_at};
ghost use Rattle.phase_order.specs.PhaseOrder.{precedes as precedes_in, verdict_between};
ghost use Rattle.phase_order.specs.Passes.{meets as meets_asked, Table, NoneMeets, Reaches};
ghost use Rattle.phase_order.specs.ByNumber.{order_of};

use archive::Archive;
use clock::Verdict;
use events::Places;
use record::Record;
use refusals::Refusal;

// So many phases are looked at in one pass at most, and eight marks stand for each.
const PHASES: usize = 1024;

const MARKS: usize = 8192;

// A record of one of eight stations, with an own count.
#[derive(Clone, Copy)]
pub struct Event {
    pub record: Record,
    ghost known: { record.station < 8 },
    ghost counted: { 1 ≤ get_or record.counts record.station 0 },
}

// Some count is at least what is asked for it; 0 asks nothing. With no early exit, so that the eight are looked at at once.
fn meets(asked: [u16; 8], counts: [u16; 8]) -> bool
    ensures { result ≡ meets_asked asked counts }
{
    let mut met = false;
    for k in 0..8 {
        met |= (0 < asked[k]) & (asked[k] <= counts[k]);
    }
    met
}

// One record more: where it is of a phase of the table and its own count is above that of the last so far, its mark stands there.
fn mark(table: &mut [u32], from: u32, asked: [u16; 8], e: Record, own: u16)
    requires { e.station < 8 }
    ensures { (length table.new ≡ length table.old) × ((a : List ℕ) (n : ℕ) → event_at a n ≡ e → own_at a n ≡ own → Table a from asked n table.old → Table a from asked (n + 1) table.new) }
{
    if e.phase < from {
        return;
    }
    let i = (e.phase - from) as usize * 8 + e.station as usize;
    if table.len() <= i {
        return;
    }
    let wide = own as u32;
    if wide <= table[i] / 2 {
        return;
    }
    table[i] = wide * 2 + u32::from(meets(asked, e.counts));
}

// The marks of the last timestamps of all stations in the phases from `from` on, as many as the table has room for.
fn lasts(archive: Archive, from: u32, asked: [u16; 8], table: &mut [u32])
    ensures { (length table.new ≡ length table.old) × Table archive.entry.bytes.now from asked (records_of archive.entry.bytes.now) table.new }
{
    table.fill(0);
    for p in Places::of(archive) {
        let e = events::event_of(archive, p);
        let own = events::count_of(archive, p, e.station as usize);
        mark(table, from, asked, e, own);
    }
}

// The lesser of a phase and that of a record of a station that is not reached, from `from` on, which knows one that is.
fn nearer(best: u32, from: u32, reached: [u16; 8], e: Record) -> u32
    requires { (e.station < 8) × (from ≤ best) }
    ensures { (from ≤ result) × (result ≤ best) × (from ≤ e.phase → e.phase < result → get_or reached e.station 0 ≡ 0 → meets_asked reached e.counts ≡ false) }
{
    if e.phase < from {
        return best;
    }
    if best <= e.phase {
        return best;
    }
    if 0 < reached[e.station as usize] {
        return best;
    }
    if meets(reached, e.counts) {
        return e.phase;
    }
    best
}

// The first phase from `from` on and before `until` in which a record of a station that is not reached knows one that is.
fn next_phase(archive: Archive, reached: [u16; 8], from: u32, until: u32) -> Option<u32>
    requires { from ≤ until }
    ensures { MatchOption result (NoneMeets archive.entry.bytes.now reached from until (records_of archive.entry.bytes.now)) (λ phase. (from ≤ phase) × (phase < until) × NoneMeets archive.entry.bytes.now reached from phase (records_of archive.entry.bytes.now)) }
{
    let mut best = until;
    for p in Places::of(archive) {
        best = nearer(best, from, reached, events::event_of(archive, p));
    }
    if best < until { Some(best) } else { None }
}

// The first phase of a table in which a station joins.
fn first_join(table: &[u32], reached: [u16; 8]) -> Option<usize>
    ensures { MatchOption result ((i : ℕ) → i < length table.now / 8 * 8 → get_or reached (i % 8) 0 ≡ 0 → get_or table.now i 0 % 2 ≡ 0) (λ q. (q * 8 + 8 ≤ length table.now) × ((i : ℕ) → i < q * 8 → get_or reached (i % 8) 0 ≡ 0 → get_or table.now i 0 % 2 ≡ 0)) }
{
    for i in 0..table.len() / 8 * 8 {
        if (table[i] % 2 == 1) & (reached[i % 8] == 0) {
            return Some(i / 8);
        }
    }
    None
}

// With the stations that join in phase q of a table.
fn join(table: &[u32], q: usize, reached: [u16; 8]) -> [u16; 8]
    requires { q * 8 + 8 ≤ length table.now }
    ensures { (s : ℕ) → s < 8 → get_or result s 0 ≡ cond (eqb (get_or table.now (q * 8 + s) 0 % 2) 1) 1 (get_or reached s 0) }
{
    let mut joined = reached;
    for s in 0..8 {
        if table[q * 8 + s] % 2 == 1 {
            joined[s] = 1;
        }
    }
    joined
}

// What is asked of last timestamps in the phase of an event: its own count, for its station.
fn asked_first(x: Event) -> [u16; 8]
    ensures { (k : ℕ) → k < 8 → get_or result k 0 ≡ cond (eqb k x.record.station) (get_or x.record.counts x.record.station 0) 0 }
{
    let mut asked = [0u16; 8];
    let s = x.record.station as usize;
    asked[s] = x.record.counts[s];
    asked
}

// The stations that an event reaches in its phase.
fn reached_first(archive: Archive, x: Event, table: &mut [u32]) -> [u16; 8]
    requires { 8 ≤ length table.old }
    ensures { (length table.new ≡ length table.old) × Reaches archive.entry.bytes.now x.record 0 result }
{
    lasts(archive, x.record.phase, asked_first(x), table);
    join(table, 0, [0u16; 8])
}

// Stations reached before a phase, 1 for each of them, as `meets` asks for them.
#[derive(Clone, Copy)]
pub struct Spread {
    pub reached: [u16; 8],
    pub next: u32,
}

// The phases of a table, from phase `from` on, up to the first in which a station joins.
fn spread_in(archive: Archive, from: u32, reached: [u16; 8], table: &mut [u32]) -> Spread
    requires { (8 ≤ length table.old) × (from * 8 + length table.old < 34359738368) }
    ensures { (length table.new ≡ length table.old) × (from < result.next) × (result.next * 8 ≤ from * 8 + length table.old) × ((x : Recorded) (d : ℕ) → x.phase + 1 + d ≡ from → Reaches archive.entry.bytes.now x d reached → (e : ℕ) → x.phase + 1 + e ≡ result.next → Reaches archive.entry.bytes.now x e result.reached) }
{
    lasts(archive, from, reached, table);
    let Some(q) = first_join(table, reached) else {
        return Spread {
            reached,
            next: from + (table.len() / 8) as u32,
        };
    };
    Spread {
        reached: join(table, q, reached),
        next: from + q as u32 + 1,
    }
}

// From phase `from` on so many phases before `until`, where the table has room for them.
fn spread_on(
    archive: Archive,
    from: u32,
    until: u32,
    phases: usize,
    reached: [u16; 8],
    table: &mut [u32],
) -> Spread
    requires { (from < until) × (1 ≤ phases) × (8 ≤ length table.old) }
    ensures { (length table.new ≡ length table.old) × (from < result.next) × (result.next ≤ until) × ((x : Recorded) (d : ℕ) → x.phase + 1 + d ≡ from → Reaches archive.entry.bytes.now x d reached → (e : ℕ) → x.phase + 1 + e ≡ result.next → Reaches archive.entry.bytes.now x e result.reached) }
{
    let most = ((until - from) as usize).min(phases);
    let n = most.min(table.len() / 8) * 8;
    spread_in(archive, from, reached, &mut table[..n])
}

// Whether x reaches a station that y of a later phase knows. A station once reached stays, so that the first one that y knows decides. In an archive
// of a run a station joins in the first phase of each look; where none does, the looks grow wider. (No range: phases in which none joins are passed over; and the
// table is a slice, as less than all of it is looked at.)
fn reaches(archive: Archive, x: Event, y: Event, table: &mut [u32]) -> bool
    requires { (x.record.phase < y.record.phase) × (8 ≤ length table.old) }
    ensures { result ≡ precedes_in archive.entry.bytes.now x.record y.record }
{
    let until = y.record.phase;
    let counts = y.record.counts;
    let mut reached = reached_first(archive, x, &mut table[..8]);
    let mut from = x.record.phase + 1;
    let mut phases = 1;
    while from < until {
        if meets(reached, counts) {
            return true;
        }
        let Some(next) = next_phase(archive, reached, from, until) else {
            return false;
        };
        let s = spread_on(archive, next, until, phases, reached, table);
        reached = s.reached;
        from = s.next;
        phases = (2 * phases).min(PHASES);
    }
    meets(reached, counts)
}

// Event x is of an earlier phase, and reaches a station that y knows.
fn precedes(archive: Archive, x: Event, y: Event) -> bool
    ensures { result ≡ precedes_in archive.entry.bytes.now x.record y.record }
{
    if y.record.phase <= x.record.phase {
        return false;
    }
    let mut table = [0u32; MARKS];
    reaches(archive, x, y, &mut table)
}

// How event x stands to event y, both of a tested archive.
#[tactic(auto, unfolding(crate::specs::PhaseOrder::verdict_between))]
pub fn verdict_between(archive: Archive, x: Event, y: Event) -> Verdict
    ensures { result ≡ verdict_between archive.entry.bytes.now x.record y.record }
{
    if x.record.phase == y.record.phase {
        return clock::compare(x.record.counts, y.record.counts);
    }
    if precedes(archive, x, y) {
        return Verdict::Before;
    }
    if precedes(archive, y, x) {
        return Verdict::After;
    }
    Verdict::Unordered
}

// Record k of an archive.
fn event_of(archive: Archive, k: usize) -> Event
    requires { k < records_of archive.bytes.now }
    ensures { result.record ≡ event_at archive.entry.bytes.now k }
{
    let record = events::event_at(archive, k);
    Event { record }
}

// How record `first` stands to record `second`: `Malformed`, `NoSuchRecord`, `IllKept`, or the verdict.
pub fn order_of(bytes: &[u8], first: usize, second: usize) -> Result<Verdict, Refusal>
    ensures { result ≡ order_of bytes.now first second }
{
    let archive = Archive::open(bytes)?;
    if archive.records() <= first.max(second) {
        return Err(Refusal::NoSuchRecord);
    }
    if !well_kept::test(archive) {
        return Err(Refusal::IllKept);
    }
    let x = event_of(archive, first);
    let y = event_of(archive, second);
    Ok(verdict_between(archive, x, y))
}
