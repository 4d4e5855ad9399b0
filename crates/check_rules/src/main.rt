// Runs networks through the network rules, and writes a line for each: the network, a number, and whether it keeps them.
#![tactic(auto)]

ghost use Rattle.std.specs.Prelude.{◌<◌, ◌≤◌};

use check_vectors::with;
use header::Header;
use std::io::Result;

type Limits = [[u8; 8]; 8];

fn say(rt: &impl Print, name: &str, k: usize, kept: bool) -> Result<()> {
    println!(rt; "{name} {k}: {}", if kept { "kept" } else { "broken" })
}

// The limit from i to j is l.
fn put(mut limits: Limits, i: usize, j: usize, l: u8) -> Limits
    requires { (i < 8) × (j < 8) }
{
    limits[i][j] = l;
    limits
}

// The limits of the link from i to j and of that back.
fn link(limits: &mut Limits, i: usize, j: usize, out: u8, back: u8)
    requires { (i < 8) × (j < 8) }
{
    limits[i][j] = out;
    limits[j][i] = back;
}

// A link from i to j with a limit of 3, and one back with a limit of 2.
fn join(mut limits: Limits, i: usize, j: usize) -> Limits
    requires { (i < 8) × (j < 8) }
{
    link(&mut limits, i, j, 3, 2);
    limits
}

// No link between i and j.
fn part(mut limits: Limits, i: usize, j: usize) -> Limits
    requires { (i < 8) × (j < 8) }
{
    link(&mut limits, i, j, 0, 0);
    limits
}

// Stations 0 to n - 1 in a row.
fn chain(n: usize) -> Limits
    requires { n ≤ 8 }
{
    let mut m = [[0u8; 8]; 8];
    for i in 1..n {
        link(&mut m, i - 1, i, 3, 2);
    }
    m
}

fn ring() -> Limits {
    join(chain(8), 7, 0)
}

// Station k is joined to every other.
fn hub(limits: &mut Limits, k: usize)
    requires { k < 8 }
{
    for i in 0..8 {
        if i != k {
            link(limits, k, i, 3, 2);
        }
    }
}

fn star(k: usize) -> Limits
    requires { k < 8 }
{
    let mut m = [[0u8; 8]; 8];
    hub(&mut m, k);
    m
}

fn complete() -> Limits {
    let mut m = [[0u8; 8]; 8];
    for k in 0..8 {
        hub(&mut m, k);
    }
    m
}

fn run(
    rt: &impl Print,
    name: &str,
    k: usize,
    n: u8,
    t: u16,
    allowances: [u16; 8],
    limits: Limits,
) -> Result<()> {
    let kept = rules::setup_fits(Header { n, t, allowances }, limits);
    say(rt, name, k, kept)
}

// The ceiling at the greatest sum, and one below.
fn few(rt: &impl Print) -> Result<()> {
    let none = [[0u8; 8]; 8];
    let pair = put(put(none, 0, 1, 2), 1, 0, 2);
    run(rt, "lone station", 5, 1, 5, with(0, 0, 5), none)?;
    run(rt, "lone station", 4, 1, 4, with(0, 0, 5), none)?;
    run(rt, "pair", 7, 2, 7, [3, 3, 0, 0, 0, 0, 0, 0], pair)?;
    run(rt, "pair", 6, 2, 6, [3, 3, 0, 0, 0, 0, 0, 0], pair)?;
    run(
        rt,
        "greatest",
        65535,
        2,
        65535,
        [65531, 65531, 0, 0, 0, 0, 0, 0],
        pair,
    )?;
    run(
        rt,
        "too great",
        65535,
        2,
        65535,
        [65535, 65531, 0, 0, 0, 0, 0, 0],
        pair,
    )
}

fn eight(rt: &impl Print) -> Result<()> {
    run(rt, "ring", 15, 8, 15, [5; 8], ring())?;
    run(rt, "ring", 14, 8, 14, [5; 8], ring())?;
    run(rt, "star", 40, 8, 40, [5; 8], star(0))?;
    run(rt, "star", 39, 8, 39, [5; 8], star(0))?;
    run(rt, "complete", 40, 8, 40, [5; 8], complete())?;
    run(rt, "complete", 39, 8, 39, [5; 8], complete())
}

// A ring with a wrong link at station k or to the next.
fn links(rt: &impl Print, k: usize, m: Limits) -> Result<()>
    requires { k < 8 }
{
    let i = (k + 1) % 8;
    run(rt, "diagonal", k, 8, 99, [5; 8], put(m, k, k, 1))?;
    run(rt, "only back", k, 8, 99, [5; 8], put(m, k, i, 0))?;
    run(rt, "only out", k, 8, 99, [5; 8], put(m, i, k, 0))?;
    run(rt, "cut once", k, 8, 99, [5; 8], part(m, k, i))?;
    run(rt, "cut twice", k, 8, 99, [5; 8], part(part(m, k, i), 0, 1))
}

// A ring with a sum at station k that is at the ceiling, or one above.
fn sums(rt: &impl Print, k: usize, m: Limits) -> Result<()>
    requires { k < 8 }
{
    let i = (k + 1) % 8;
    run(rt, "allowance of 5", k, 8, 15, with(0, k, 5), m)?;
    run(rt, "allowance of 6", k, 8, 15, with(0, k, 6), m)?;
    run(rt, "one more out", k, 8, 15, [5; 8], put(m, k, i, 4))?;
    run(rt, "one more back", k, 8, 15, [5; 8], put(m, i, k, 3))?;
    run(rt, "star", k, 8, 35, [0; 8], star(k))?;
    run(rt, "star less one", k, 8, 34, [0; 8], star(k))
}

// Five stations in a row, and something set at station k.
fn above(rt: &impl Print, k: usize) -> Result<()>
    requires { k < 8 }
{
    let i = (k + 2) % 8;
    run(rt, "allowance at", k, 5, 99, with(0, k, 1), chain(5))?;
    run(rt, "link at", k, 5, 99, [0; 8], join(chain(5), k, i))
}

// A header of n stations over a row of k, and over a ring of eight.
fn headers(rt: &impl Print, k: usize, n: u8) -> Result<()>
    requires { k < 8 }
{
    let at = usize::from(n);
    let h = Header {
        n,
        t: 99,
        allowances: [0u16; 8],
    };
    say(rt, "stations of a row", at, rules::setup_fits(h, chain(k)))?;
    say(rt, "stations of a ring", at, rules::setup_fits(h, ring()))
}

fn places(rt: &impl Print) -> Result<()> {
    for k in 0..8 {
        links(rt, k, ring())?;
        sums(rt, k, ring())?;
        above(rt, k)?;
        headers(rt, k, k as u8)?;
    }
    Ok(())
}

fn run_all(rt: &impl Print) -> Result<()> {
    few(rt)?;
    eight(rt)?;
    places(rt)?;
    headers(rt, 7, 8)?;
    headers(rt, 7, 9)?;
    headers(rt, 7, 255)
}

// A write that fails is left: there is nobody to tell.
fn main(rt: HostRuntime) {
    let _ = run_all(&check_vectors::Unheard(&rt));
}
