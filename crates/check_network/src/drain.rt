// Random steps, and receipts alone until none is accepted any more.
ghost use Rattle.std.specs.Prelude.{◌<◌, ◌≤◌};

use check_vectors::Line;
use refusals::Refusal;
use std::io;
use step_parts::answer::Accepted;

// The random number after x.
fn next(x: u64) -> u64
    ensures { result < 2147483648 }
{
    (x % 2147483648 * 1103515245 + 12345) % 2147483648
}

// A number below k by a random number.
fn drawn(x: u64, k: u32) -> u32
    requires { (x < 2147483648) × (0 < k) }
    ensures { result < k }
{
    (x / 65536) as u32 % k
}

fn step(area: &mut [u8], kind: u32, i: u32, j: u32) -> Result<Accepted, Refusal> {
    match kind {
        0 => network::enter(area, i, 7),
        1..=3 => network::send(area, i, j, 7),
        4..=6 => network::recv(area, i, j),
        _ => network::start(area, i),
    }
}

// Random steps by a line: how many, a number to start from, and the stations. A refused one counts too.
pub fn walk(area: &mut [u8], s: Line) {
    let n = s.word(3).max(1);
    let mut x = s.number(2);
    for _ in 0..s.number(1) {
        let kind = next(x);
        let i = next(kind);
        let j = next(i);
        let _ = step(area, drawn(kind, 8), drawn(i, n), drawn(j, n));
        x = j;
    }
}

// The receipts that a round tries, one after another: rising from 0, falling from 63, or rising from a random one.
#[derive(Clone, Copy)]
enum Order {
    Rising,
    Falling,
    Random,
}

impl From<u64> for Order {
    fn from(k: u64) -> Order {
        match k {
            0 => Order::Rising,
            1 => Order::Falling,
            _ => Order::Random,
        }
    }
}

// The m-th receipt of a round.
fn nth(order: Order, x: u64, m: u32) -> u32
    requires { (x < 2147483648) × (m < 64) }
{
    match order {
        Order::Rising => m,
        Order::Falling => 63 - m,
        Order::Random => (drawn(x, 64) + m) % 64,
    }
}

// One receipt: the first that is accepted of a round's 64; number k is station k / 8 receiving from k % 8. False where none is accepted.
fn taken(area: &mut [u8], order: Order, x: u64) -> bool
    requires { x < 2147483648 }
{
    for m in 0..64 {
        let k = nth(order, x, m);
        if network::recv(area, k / 8, k % 8).is_ok() {
            return true;
        }
    }
    false
}

// How many receipts are accepted, one in each round, before a round in which none is.
fn rounds(area: &mut [u8], order: Order, seed: u64) -> u32 {
    let mut x = seed;
    for n in 0..65536 {
        x = next(x);
        if !taken(area, order, x) {
            return n;
        }
    }
    65536
}

// The same by a line, on a copy of the area, which stays: their order, and a number to start from. Shown are the receipts to rest before, how
// many were accepted, and rest after.
pub fn drain(rt: &impl Print, area: &[u8; 65536], s: Line) -> io::Result<()> {
    let mut copy = *area;
    crate::show::left(rt, receipts::to_rest(&copy))?;
    print!(rt; " {}", rounds(&mut copy, s.number(1).into(), s.number(2)))?;
    crate::show::rest(rt, quiescence::rest(&copy))
}
