// Which stations can be reached from station 0, by spreading over neighbours.
#![tactic(auto)]

ghost use Rattle.std.specs.Prelude.{◌≡◌, ◌<◌, ◌≤◌, MatchOption};
ghost use Rattle.reset.specs.Reach.{apart, joins, first, reached, every_reached};
ghost use Rattle.reach.specs.Order.{has_earlier, in_order};

// No reached station has a link to j.
fn is_apart(limits: [[u8; 8]; 8], seen: [u8; 8], j: usize) -> bool
    requires { j < 8 }
    ensures { result ≡ apart limits seen j }
{
    for i in 0..8 {
        if (seen[i] != 0) & (limits[i][j] != 0) {
            return false;
        }
    }
    true
}

// The first station that joins, if one does.
fn next(limits: [[u8; 8]; 8], seen: [u8; 8]) -> Option<usize>
    ensures { MatchOption result (first 8 (joins limits seen) ≡ 8) (λ j. (j ≡ first 8 (joins limits seen)) × (j < 8)) }
{
    for j in 0..8 {
        if (seen[j] == 0) & !is_apart(limits, seen, j) {
            return Some(j);
        }
    }
    None
}

// All that can be reached from those in `seen`. Each call reaches one station more, so the number of unreached stations falls.
fn spread(limits: [[u8; 8]; 8], seen: [u8; 8]) -> [u8; 8]
    ensures { result ≡ reached limits seen }
{
    let Some(j) = next(limits, seen) else {
        return seen;
    };
    let mut more = seen;
    more[j] = 1;
    spread(limits, more)
}

// A station before j has a link to it.
fn has_earlier(limits: [[u8; 8]; 8], j: usize) -> bool
    requires { j < 8 }
    ensures { result ≡ has_earlier limits j }
{
    for i in 0..j {
        if limits[i][j] != 0 {
            return true;
        }
    }
    false
}

// Every station below n but 0 has a link from one before it: so it is reached, and nothing has to spread.
fn in_order(n: u8, limits: [[u8; 8]; 8]) -> bool
    requires { n ≤ 8 }
    ensures { result ≡ in_order n limits }
{
    for j in 1..usize::from(n) {
        if !has_earlier(limits, j) {
            return false;
        }
    }
    true
}

// Every station below n can be reached from station 0. The table has eight stations: none above is reached.
pub fn every_reached(n: u8, limits: [[u8; 8]; 8]) -> bool
    ensures { result ≡ every_reached n limits }
{
    if 8 < n {
        return false;
    }
    if in_order(n, limits) {
        return true;
    }
    let seen = spread(limits, [1, 0, 0, 0, 0, 0, 0, 0]);
    for i in 0..usize::from(n) {
        if seen[i] == 0 {
            return false;
        }
    }
    true
}
