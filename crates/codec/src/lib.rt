// Little-endian numbers in slices of bytes; runs of zeros; copies.
#![tactic(auto)]

ghost use Rattle.std.specs.Prelude.{◌≡◌, ℕ, ◌+◌, ◌*◌, ◌<◌, ◌≤◌, length, take, drop};
ghost use Rattle.codec.specs.Splice.{splice};
ghost use Rattle.codec.specs.Num.{bytes_of, num_at, nums_at, nums_of};
ghost use Rattle.codec.specs.Every.{all_zero, blank};

// A number that lies in bytes, the lowest first: of how many, and which number a value stands for.
pub trait Number {
    ghost width: { ℕ };

    ghost number: { Self → ℕ };

    // The number from a place on.
    fn get(s: &[u8], at: usize) -> Self
        requires { at + width ≤ length s.now }
        ensures { number result ≡ num_at width s.now at };

    // Its bytes from a place on.
    fn put(self, d: &mut [u8], at: usize)
        requires { at + width ≤ length d.old }
        ensures { d.new ≡ splice d.old at (bytes_of width (number self)) };
}

impl Number for u16 {
    ghost width = { 2 };

    ghost number = { λ x. x };

    fn get(s: &[u8], at: usize) -> u16 {
        u16::from(s[at]) + 256 * u16::from(s[at + 1])
    }

    fn put(self, d: &mut [u8], at: usize) {
        d[at] = (self % 256) as u8;
        d[at + 1] = (self / 256) as u8;
    }
}

impl Number for u32 {
    ghost width = { 4 };

    ghost number = { λ x. x };

    fn get(s: &[u8], at: usize) -> u32 {
        u32::from(u16::get(s, at)) + 65536 * u32::from(u16::get(s, at + 2))
    }

    fn put(self, d: &mut [u8], at: usize) {
        d[at] = (self % 256) as u8;
        d[at + 1] = (self / 256 % 256) as u8;
        d[at + 2] = (self / 256 / 256 % 256) as u8;
        d[at + 3] = (self / 256 / 256 / 256 % 256) as u8;
    }
}

// Eight numbers of two bytes.
pub fn get_row(s: &[u8], at: usize) -> [u16; 8]
    requires { at + 16 ≤ length s.now }
    ensures { result ≡ nums_at 2 8 s.now at }
{
    [
        u16::get(s, at),
        u16::get(s, at + 2),
        u16::get(s, at + 4),
        u16::get(s, at + 6),
        u16::get(s, at + 8),
        u16::get(s, at + 10),
        u16::get(s, at + 12),
        u16::get(s, at + 14),
    ]
}

pub fn put_row(d: &mut [u8], at: usize, c: [u16; 8])
    requires { at + 16 ≤ length d.old }
    ensures { d.new ≡ splice d.old at (nums_of 2 8 c) }
{
    for i in 0..8 {
        c[i].put(d, at + 2 * i);
    }
}

// Every byte is 0. Joined by `|`, with no early exit, so that the loop is vectorised.
pub fn zeros(s: &[u8]) -> bool
    ensures { result ≡ all_zero s.now }
{
    let mut acc: u8 = 0;
    for x in s {
        acc |= *x;
    }
    acc == 0
}

// N bytes from a place on are 0. A fixed length is read with no loop.
fn zeros_at<const N: usize>(s: &[u8], at: usize) -> bool
    requires { at + N ≤ length s.now }
    ensures { result ≡ all_zero (take N (drop at s.now)) }
{
    zeros(&s[at..at + N])
}

// Every byte of a run, however long, is 0. The last line may be read twice, which spares a loop over single bytes. The
// first is read for itself, so that the pieces can start at any `lead`: they are read fastest where the machine's lines do.
// (Two strides, the second from where the first stops: iterators over chunks would need that place handed from one to the other.)
pub fn zero_run(s: &[u8], lead: usize) -> bool
    requires { lead ≤ 32 }
    ensures { result ≡ all_zero s.now }
{
    let n = s.len();
    if n < 32 {
        return zeros(s);
    }
    let mut ok = zeros_at::<32>(s, 0) & zeros_at::<32>(s, n - 32);
    let mut i = lead;
    while 512 <= n - i {
        ok &= zeros_at::<512>(s, i);
        i += 512;
    }
    while 32 <= n - i {
        ok &= zeros_at::<32>(s, i);
        i += 32;
    }
    ok
}

// n zeros from a place on.
pub fn put_zeros(d: &mut [u8], at: usize, n: usize)
    requires { at + n ≤ length d.old }
    ensures { d.new ≡ splice d.old at (blank n) }
{
    d[at..at + n].fill(0);
}

// A copy of `s` from a place on.
pub fn put_bytes(d: &mut [u8], at: usize, s: &[u8])
    requires { at + length s.now ≤ length d.old }
    ensures { d.new ≡ splice d.old at s.now }
{
    d[at..at + s.len()].copy_from_slice(s);
}
