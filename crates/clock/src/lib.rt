// Timestamps: eight counts, one for each station.
#![tactic(auto)]

ghost use Rattle.std.specs.Prelude.{◌≡◌, ◌<◌, get_or};
ghost use Rattle.clock.specs.Timestamp.{tick, merged, raised, news as News};
ghost use Rattle.clock.specs.Order.{by_flags, verdict_of};
ghost use Rattle.clock.specs.Numbers.{order_number};
ghost use Rattle.clock.specs.Range.{ceiling_of, counts_fit};

// The last phase: timestamps start again in each.
pub const LAST_PHASE: u32 = 999999;

// How the first of two timestamps stands to the second. Unordered: concurrent.
#[derive(Clone, Copy, Debug, PartialEq, Eq)]
pub enum Verdict {
    Before,
    After,
    Same,
    Unordered,
}

// The number that stands for a verdict, where one is returned or written.
impl From<Verdict> for u8 {
    ghost from_gives = { λ verdict n. n ≡ order_number verdict };

    fn from(verdict: Verdict) -> u8 {
        match verdict {
            Verdict::Before => 100,
            Verdict::After => 101,
            Verdict::Same => 102,
            Verdict::Unordered => 103,
        }
    }
}

// By two flags: some count of the first is less; some is greater.
fn decide(less: bool, greater: bool) -> Verdict
    ensures { result ≡ by_flags less greater }
{
    match (less, greater) {
        (true, true) => Verdict::Unordered,
        (true, false) => Verdict::Before,
        (false, true) => Verdict::After,
        (false, false) => Verdict::Same,
    }
}

// How a stands to b.
pub fn compare(a: [u16; 8], b: [u16; 8]) -> Verdict
    ensures { result ≡ verdict_of a b }
{
    let mut less = false;
    let mut greater = false;
    for k in 0..8 {
        less |= a[k] < b[k];
        greater |= b[k] < a[k];
    }
    decide(less, greater)
}

// Each count the greater of the two.
pub fn merge(a: [u16; 8], b: [u16; 8]) -> [u16; 8]
    ensures { result ≡ merged a b }
{
    let mut r = a;
    for i in 0..8 {
        r[i] = a[i].max(b[i]);
    }
    r
}

// Station i's own count +1.
pub fn advance(a: [u16; 8], i: usize) -> [u16; 8]
    requires { (i < 8) × (get_or a i 0 < 65535) }
    ensures { result ≡ tick i a }
{
    let mut r = a;
    r[i] = a[i] + 1;
    r
}

// Station i receives b: each other count the greater of the two, its own +1.
pub fn raise(a: [u16; 8], b: [u16; 8], i: usize) -> [u16; 8]
    requires { (i < 8) × (get_or a i 0 < 65535) }
    ensures { result ≡ raised i a b }
{
    let mut r = merge(a, b);
    r[i] = a[i] + 1;
    r
}

// How many of the other stations' counts grew at station i, from a to b.
pub fn news(a: [u16; 8], b: [u16; 8], i: usize) -> u8
    ensures { result ≡ News i a b }
{
    let mut grown: u8 = 0;
    for j in 0..8 {
        grown += u8::from((j != i) & (a[j] < b[j]));
    }
    grown
}

// t for a station below n, else 0.
pub fn ceiling(k: u8, n: u8, t: u16) -> u16
    ensures { result ≡ ceiling_of n t k }
{
    if k < n { t } else { 0 }
}

// Every count is at most t, and 0 for stations n and above.
pub fn counts_fit(a: [u16; 8], n: u8, t: u16) -> bool
    ensures { result ≡ counts_fit n t a }
{
    let mut ok = true;
    for j in 0..8u8 {
        ok &= a[usize::from(j)] <= ceiling(j, n, t);
    }
    ok
}
