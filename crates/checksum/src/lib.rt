// The check of a block: read, and written.
#![tactic(auto)]

ghost use Rattle.std.specs.Prelude.{◌≡◌, true, List, ℕ, ◌&&◌, ◌+◌, ◌*◌, ◌<◌, ◌≤◌, length, take, drop};
ghost use Rattle.codec.specs.Every.{all_zero};
ghost use Rattle.checksum.specs.Check.{weighted, check_of, sealed as Sealed, seal_of};
ghost use Rattle.checksum.specs.Columns.{column_share, column_sum, column_rows, columns_to, Columns};

use codec::Number;

// A block in bytes.
pub const BLOCK: usize = 512;

// The sum of a column, and the sum of its bytes, each times its row.
#[derive(Clone, Copy)]
struct Sums {
    low: u16,
    high: u16,
}

// What column k comes to, each byte times its place from 1. The remainder changes nothing: it shows the compiler that the
// product is small.
fn share(k: u32, low: u16, high: u16) -> u32
    requires { (k < 32) × (low ≤ 3825) × (high ≤ 53550) }
    ensures { (result ≡ 32 * high + (k + 1) * low) × (result ≤ 1836000) }
{
    32 * u32::from(high) + (k + 1) * u32::from(low % 4096)
}

// Column j of the first 480 bytes, which are 15 rows of 32, from the last row to the first: each sum is added to the
// other once for each row that is left, so that no product is made.
fn column(s: &[u8], j: usize) -> Sums
    requires { (j < 32) × (480 ≤ length s.now) }
    ensures { (result.low ≡ column_sum 15 s.now j) × (result.high ≡ column_rows 15 s.now j) × (result.low ≤ 3825) × (result.high ≤ 53550) }
{
    let mut low: u16 = 0;
    let mut high: u16 = 0;
    for r in (0..15usize).rev() {
        high += low;
        low += u16::from(s[r * 32 + j]);
    }
    Sums { low, high }
}

// The sums of the 32 columns. They stand in two arrays, so that they are vectorised: eight at a time, in 16 bits.
#[derive(Clone, Copy)]
pub struct ColumnSums {
    pub lows: [u16; 32],
    pub highs: [u16; 32],
}

impl ColumnSums {
    // Of no column yet.
    pub fn new() -> ColumnSums
        ensures { (l : List ℕ) → Columns l 0 result.lows result.highs }
    {
        ColumnSums {
            lows: [0; 32],
            highs: [0; 32],
        }
    }

    // Adds up the columns from `from` to before `end`, where those before `from` are there.
    pub fn fill(&mut self, s: &[u8], from: usize, end: usize)
        requires { (480 ≤ length s.now) × (from ≤ end) × (end ≤ 32) × Columns s.now from self.old.lows self.old.highs }
        ensures { Columns s.now end self.new.lows self.new.highs }
    {
        for j in from..end {
            let c = column(s, j);
            self.lows[j] = c.low;
            self.highs[j] = c.high;
        }
    }
}

// The sum of the first `end` bytes, each times its place from 1, from that of the first `i`.
fn weigh_on(s: &[u8], i: u32, end: u32, sum: u32) -> u32
    requires { (i ≤ end) × (end ≤ 510) × (510 ≤ length s.now) × (sum ≤ 130050 * i) × (sum ≡ weighted 1 (take i s.now)) }
    ensures { (result ≡ weighted 1 (take end s.now)) × (result ≤ 130050 * end) }
{
    let mut all = sum;
    for k in i..end {
        all += (k + 1) * u32::from(s[k as usize]);
    }
    all
}

// The sum of the first 496 bytes, each times its place from 1, by their columns.
fn weigh_columns(s: &[u8], sums: &ColumnSums) -> u32
    requires { (510 ≤ length s.now) × Columns s.now 32 sums.now.lows sums.now.highs }
    ensures { (result ≡ weighted 1 (take 496 s.now)) × (result ≤ 64504800) }
{
    let mut sum: u32 = 0;
    for k in 0..32u32 {
        let at = k as usize;
        sum += share(k, sums.lows[at], sums.highs[at]);
    }
    weigh_on(s, 480, 496, sum)
}

// The sum of the first 510 bytes, each times its place from 1: at most 510 times 255 times 510, so that 32 bits hold it.
// The last fourteen, which are zero in an entries block, are added only where they are not.
fn weigh(s: &[u8]) -> u32
    requires { 510 ≤ length s.now }
    ensures { (result ≡ weighted 1 (take 510 s.now)) × (result ≤ 66325500) }
{
    let mut sums = ColumnSums::new();
    sums.fill(s, 0, 32);
    let sum = weigh_columns(s, &sums);
    if codec::zeros(&s[496..510]) {
        return sum;
    }
    weigh_on(s, 496, 510, sum)
}

// The check of a block, of its first 510 bytes.
pub fn check(s: &[u8]) -> u16
    requires { 510 ≤ length s.now }
    ensures { result ≡ check_of s.now }
{
    ((1 + weigh(s)) % 65521) as u16
}

// A block's last two bytes hold the check of those before.
pub fn sealed(s: &[u8]) -> bool
    requires { length s.now ≡ 512 }
    ensures { result ≡ Sealed s.now }
{
    u16::get(s, 510) == check(s)
}

// The same by the columns of a block, with zeros in the fourteen bytes before the check, which then count for nothing.
pub fn sealed_columns(s: &[u8], sums: &ColumnSums) -> bool
    requires { (length s.now ≡ 512) × Columns s.now 32 sums.now.lows sums.now.highs }
    ensures { result ≡ (all_zero (take 14 (drop 496 s.now)) && Sealed s.now) }
{
    let sum = weigh_columns(s, sums);
    codec::zeros(&s[496..510]) & (u16::get(s, 510) == ((1 + sum) % 65521) as u16)
}

// What column j of three rows comes to, each byte times its place from 1: 16 bits hold it.
fn share_front(s: &[u8], j: u16) -> u16
    requires { (j < 32) × (96 ≤ length s.now) }
    ensures { (result ≡ column_share 3 s.now j) × (result ≤ 48960) }
{
    let at = j as usize;
    let a = u16::from(s[at]);
    let b = u16::from(s[32 + at]);
    let c = u16::from(s[64 + at]);
    (j + 1) * (a + b + c) + 32 * (b + 2 * c)
}

// The sum of the first 96 bytes, each times its place from 1. Added up in halves of 16 bits, so that the columns are
// vectorised eight at a time.
fn weigh_front(s: &[u8]) -> u32
    requires { 96 ≤ length s.now }
    ensures { (result ≡ columns_to 3 32 s.now) × (result ≤ 1572832) }
{
    let mut low: u16 = 0;
    let mut high: u16 = 0;
    for i in 0..32u16 {
        let x = share_front(s, i);
        low += x % 256;
        high += x / 256;
    }
    u32::from(low) + 256 * u32::from(high)
}

// The same as `sealed`, for a block with zeros from byte 96 on, which count for nothing.
pub fn sealed_front(s: &[u8]) -> bool
    requires { (length s.now ≡ 512) × (all_zero (take 414 (drop 96 s.now)) ≡ true) }
    ensures { result ≡ Sealed s.now }
{
    u16::get(s, 510) == ((1 + weigh_front(s)) % 65521) as u16
}

// Writes the check into a block's last two bytes.
pub fn seal(d: &mut [u8])
    requires { length d.old ≡ 512 }
    ensures { d.new ≡ seal_of (take 510 d.old) }
{
    let sum = check(d);
    sum.put(d, 510);
}
