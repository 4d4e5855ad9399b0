// Runs the vectors of `clock`, and writes a line for each.
#![tactic(auto)]

ghost use Rattle.std.specs.Prelude.{◌≡◌, ◌<◌, get_or};

use check_vectors::{Spaced, with, word};
use std::io::Result;

fn yes(b: bool) -> &'static str {
    if b { "yes" } else { "no" }
}

fn order(rt: &impl Print, a: [u16; 8], b: [u16; 8]) -> Result<()> {
    let order = word(clock::compare(a, b));
    println!(rt; "compare{} and{}: {order}", Spaced(&a), Spaced(&b))
}

fn bound(rt: &impl Print, a: [u16; 8], t: u16) -> Result<()> {
    let fit = yes(clock::counts_fit(a, 8, t));
    println!(rt; "within{} and {t}: {fit}", Spaced(&a))
}

fn join(rt: &impl Print, a: [u16; 8], b: [u16; 8]) -> Result<()> {
    let merged = clock::merge(a, b);
    println!(rt; "merge{} and{}:{}", Spaced(&a), Spaced(&b), Spaced(&merged))
}

// The steps of station i: an entry of its own, and a receipt of b with its news.
fn step(rt: &impl Print, a: [u16; 8], b: [u16; 8], i: usize) -> Result<()>
    requires { (i < 8) × (get_or a i 0 < 65535) }
{
    let advanced = clock::advance(a, i);
    let raised = clock::raise(a, b, i);
    let news = clock::news(a, raised, i);
    println!(rt; "advance{}:{}", Spaced(&a), Spaced(&advanced))?;
    println!(rt;
        "raise{} by{}:{}, news {news}",
        Spaced(&a),
        Spaced(&b),
        Spaced(&raised)
    )
}

// Counts of 5, with x at place i.
fn fives(i: usize, x: u16) -> [u16; 8]
    requires { i < 8 }
    ensures { get_or result i 0 ≡ x }
{
    with(5, i, x)
}

// Sixes up to place i, and fours behind it.
fn up_to(i: usize) -> [u16; 8]
    requires { i < 8 }
{
    let mut c = [4u16; 8];
    c[..i + 1].fill(6);
    c
}

// One count that differs, at place i; then another at place j too.
fn orders(rt: &impl Print, i: usize, j: usize) -> Result<()>
    requires { (i < 8) × (j < 8) }
{
    order(rt, fives(i, 4), fives(i, 5))?;
    order(rt, fives(i, 6), fives(i, 5))?;
    order(rt, fives(i, 0), fives(i, 65535))?;
    order(rt, fives(i, 65535), fives(i, 0))?;
    order(rt, fives(i, 4), fives(j, 4))
}

fn merges(rt: &impl Print, i: usize, j: usize) -> Result<()>
    requires { (i < 8) × (j < 8) }
{
    bound(rt, fives(i, 6), 6)?;
    bound(rt, fives(i, 6), 5)?;
    join(rt, fives(i, 65535), fives(j, 7))?;
    step(rt, fives(i, 65534), fives(j, 8), i)?;
    step(rt, fives(i, 3), fives(i, 65535), i)?;
    step(rt, fives(i, 5), up_to(i), i)
}

fn places(rt: &impl Print) -> Result<()> {
    for i in 0..8 {
        let j = (i + 1) % 8;
        orders(rt, i, j)?;
        merges(rt, i, j)?;
    }
    Ok(())
}

// One count x at each place in turn, the others 0.
fn alone(rt: &impl Print, n: u8, x: u16, t: u16) -> Result<()> {
    print!(rt; "count {x} within {t} of stations {n}:")?;
    for i in 0..8 {
        print!(rt; " {}", yes(clock::counts_fit(with(0, i, x), n, t)))?;
    }
    println!(rt; "")
}

// A count that is at most t is wrong for stations n and above alone, one above t for those below n too.
fn stations(rt: &impl Print) -> Result<()> {
    for n in 1..9 {
        alone(rt, n, 1, 1)?;
        alone(rt, n, 65535, 65535)?;
        alone(rt, n, 2, 1)?;
    }
    Ok(())
}

fn run_all(rt: &impl Print) -> Result<()> {
    order(rt, [1, 0, 0, 0, 0, 0, 0, 0], [2, 1, 0, 0, 0, 0, 0, 0])?;
    order(rt, [0, 1, 0, 0, 0, 0, 0, 0], [1, 0, 0, 0, 0, 0, 0, 0])?;
    order(rt, [0; 8], [0; 8])?;
    order(rt, [65535; 8], [65535; 8])?;
    order(rt, [0; 8], [65535; 8])?;
    order(rt, [65535; 8], [0; 8])?;
    join(
        rt,
        [1, 9, 3, 0, 65535, 0, 7, 2],
        [2, 8, 3, 65535, 0, 0, 6, 4],
    )?;
    places(rt)?;
    stations(rt)
}

// A write that fails is left: there is nobody to tell.
fn main(rt: HostRuntime) {
    let _ = run_all(&check_vectors::Unheard(&rt));
}
