// Whether an archive is well kept: each station's own counts in a phase are 1, 2, 3 .., each once. Phase, station and own count of a record make
// its key, so that the records' keys, in order, must go up by 1, or to a key with own count 1. Where the records of each station come in order,
// as in every archive of a run, one pass tells. Else the keys are taken in windows, as many as have places on the stack, and each window is sorted.
#![tactic(auto)]

ghost use Rattle.std.specs.Prelude.{◌≡◌, List, true, false, ℕ, ◌+◌, ◌≤◌, ◌<◌, length, MatchOption};
ghost use Rattle.lists.specs.Lists.{Arranged, same};
ghost use Rattle.archive.specs.Archive.{records as records_of};
ghost use Rattle.well_kept.specs.WellKept.{well_kept};
ghost use Rattle.well_kept.specs.Keys.{key_at, no_key, follows as follows_on, runs_on, last_from};
ghost use Rattle.well_kept.specs.Windows.{Gathered};

use archive::Archive;
use events::{Place, Places};

// Above every key.
const NO_KEY: u64 = 1 << 40;

// Places for the keys of a window, half of how many are wanted in one, and how many numbers the first one spans.
const PLACES: usize = 16384;

const HALF_WANTED: u64 = 6144;

const FIRST_SPAN: u64 = 1048576;

// The key of the record at a place.
fn key_of(archive: Archive, p: Place) -> u64
    requires { p.number < records_of archive.bytes.now }
    ensures { (result ≡ key_at archive.entry.bytes.now p.number) × (result < no_key) }
{
    let e = events::event_of(archive, p);
    let own = events::count_of(archive, p, usize::from(e.station));
    (u64::from(e.phase) * 8 + u64::from(e.station)) * 65536 + u64::from(own)
}

// Key v is as it must be where p is the greatest key below it.
fn follows(p: u64, v: u64) -> bool
    ensures { result ≡ follows_on p v }
{
    p < v && ((v - p == 1) | (v % 65536 == 1))
}

// Each station's records come in the order of their keys, none left out.
fn in_order(archive: Archive) -> bool
    ensures { result ≡ true → well_kept archive.entry.bytes.now ≡ true }
{
    let mut last = [0u64; 8];
    for p in Places::of(archive) {
        let key = key_of(archive, p);
        let s = (key / 65536 % 8) as usize;
        if !follows(last[s], key) {
            return false;
        }
        last[s] = key;
    }
    true
}

// How many keys a window has, and the least key behind it. `NO_KEY` where there is none: an option would be no plainer, since the next window
// starts just below it.
#[derive(Clone, Copy)]
pub struct Window {
    pub count: usize,
    pub next: u64,
}

// A window after one more key: counted where it is above lo and up to hi, and put into the list while there is a place.
fn with_key(w: Window, lo: u64, hi: u64, key: u64, list: &mut [u64]) -> Window
    requires { w.count < 18446744073709551615 }
    ensures { (length list.new ≡ length list.old) × ((a : List ℕ) (n : ℕ) → key_at a n ≡ key → Gathered a lo hi n w list.old → Gathered a lo hi (n + 1) result list.new) }
{
    if hi < key {
        return Window {
            next: w.next.min(key),
            ..w
        };
    }
    if key <= lo {
        return w;
    }
    if w.count < list.len() {
        list[w.count] = key;
    }
    Window {
        count: w.count + 1,
        ..w
    }
}

// The keys above lo and up to hi: how many, and the least key behind them; into the list, where it has places for all.
fn gather(archive: Archive, lo: u64, hi: u64, list: &mut [u64]) -> Window
    requires { hi < no_key }
    ensures { (length list.new ≡ length list.old) × Gathered archive.entry.bytes.now lo hi (records_of archive.entry.bytes.now) result list.new }
{
    let mut w = Window {
        count: 0,
        next: NO_KEY,
    };
    for p in Places::of(archive) {
        w = with_key(w, lo, hi, key_of(archive, p), list);
    }
    w
}

// The last of a list of keys that runs on behind a key.
fn run_from(last: u64, list: &[u64]) -> Option<u64>
    ensures { MatchOption result (runs_on last list.now ≡ false) (λ latest. (runs_on last list.now ≡ true) × (latest ≡ last_from last list.now)) }
{
    let mut latest = last;
    for key in list {
        if !follows(latest, *key) {
            return None;
        }
        latest = *key;
    }
    Some(latest)
}

// Sorts the keys of a window and looks at them.
fn sorted_run(last: u64, list: &mut [u64]) -> Option<u64>
    ensures { Arranged same list.old list.new × MatchOption result (runs_on last list.new ≡ false) (λ latest. (runs_on last list.new ≡ true) × (latest ≡ last_from last list.new)) }
{
    number_sort::sort(list);
    run_from(last, list)
}

// How wide a window is to be where one of this width had so many keys, for about as many as are wanted. Nothing but time rests on it.
fn fitting(span: u64, count: usize) -> u64
    requires { span ≤ no_key }
    ensures { (1 ≤ result) × (result ≤ no_key) }
{
    (span * HALF_WANTED / (count as u64 / 2 + 1)).clamp(1, NO_KEY)
}

// Every key above `lo`, window by window, where those up to it are as they must be and `last` is the greatest of them. (No
// range: each window is as wide as the one before it asks.)
fn windows_kept(archive: Archive, list: &mut [u64]) -> bool
    requires { 1 ≤ length list.old }
    ensures { result ≡ well_kept archive.entry.bytes.now }
{
    let places = list.len();
    let mut lo = 0;
    let mut last = 0;
    let mut span = FIRST_SPAN;
    while lo < NO_KEY - 1 {
        let hi = (lo + span).min(NO_KEY - 1);
        let w = gather(archive, lo, hi, list);
        let n = w.count;
        if places < n {
            if span < 2 {
                return false;
            }
            span = fitting(span, n).min(span / 2);
        } else {
            let Some(latest) = sorted_run(last, &mut list[..n]) else {
                return false;
            };
            last = latest;
            lo = w.next - 1;
            span = fitting(span, n);
        }
    }
    true
}

// The archive is well kept, whatever the order of its records.
fn in_any_order(archive: Archive) -> bool
    ensures { result ≡ well_kept archive.entry.bytes.now }
{
    let mut list = [0u64; PLACES];
    windows_kept(archive, &mut list)
}

// A tested archive is well kept.
pub fn test(archive: Archive) -> bool
    ensures { result ≡ well_kept archive.entry.bytes.now }
{
    in_order(archive) || in_any_order(archive)
}
