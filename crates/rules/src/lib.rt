// The network rules, on a header's fields. The limits are a table of eight rows, one for each sender.
#![tactic(auto)]

ghost use Rattle.std.specs.Prelude.{◌≡◌, ◌&&◌, ℕ, ◌<◌, ◌≤◌};
ghost use Rattle.codec.specs.Every.{every, sum};
ghost use Rattle.reset.specs.Config.{zero_diagonal, both_or_none, linked_both_ways, allowance_below, limit_below, between, within_ceiling, network_rules};
ghost use Rattle.rules.specs.Setup.{header_config};
ghost use Rattle.rules.specs.Table.{column_of, turned_of};

use header::Header;

// The limits of the links to station j. Written out: the loop over a range needs an invariant that is longer.
fn column(limits: [[u8; 8]; 8], j: usize) -> [u8; 8]
    requires { j < 8 }
    ensures { result ≡ column_of limits j }
{
    [
        limits[0][j],
        limits[1][j],
        limits[2][j],
        limits[3][j],
        limits[4][j],
        limits[5][j],
        limits[6][j],
        limits[7][j],
    ]
}

// The table turned: a row for each receiver. Made once, it is read by rows, as the limits are.
fn turned(limits: [[u8; 8]; 8]) -> [[u8; 8]; 8]
    ensures { result ≡ turned_of limits }
{
    [
        column(limits, 0),
        column(limits, 1),
        column(limits, 2),
        column(limits, 3),
        column(limits, 4),
        column(limits, 5),
        column(limits, 6),
        column(limits, 7),
    ]
}

// The limits by sender, and by receiver: lent to each test, since a copy for each row would cost more than the tests.
#[derive(Clone, Copy)]
struct Links {
    limits: [[u8; 8]; 8],
    back: [[u8; 8]; 8],
    ghost turned: { back ≡ turned_of limits },
}

impl Links {
    fn new(limits: [[u8; 8]; 8]) -> Links
        ensures { result.limits ≡ limits }
    {
        Links {
            limits,
            back: turned(limits),
        }
    }

    // Station i has a link to another exactly where it has one from there. No early exit, so that the row is vectorised.
    fn row_both_ways(&self, i: usize) -> bool
        requires { i < 8 }
        ensures { result ≡ every 8 (both_or_none self.now.limits i) }
    {
        let mut ok = true;
        for j in 0..8 {
            ok &= (self.limits[i][j] == 0) == (self.back[i][j] == 0);
        }
        ok
    }

    // No station has a link to itself, and every link has one back.
    fn linked_both_ways(&self) -> bool
        ensures { result ≡ (zero_diagonal self.now.limits && linked_both_ways self.now.limits) }
    {
        for i in 0..8 {
            let own = self.limits[i][i];
            if !((own == 0) & self.row_both_ways(i)) {
                return false;
            }
        }
        true
    }

    // The limits of station i's links, out and in, added up.
    fn around(&self, i: usize) -> u32
        requires { i < 8 }
        ensures { (result ≡ sum 8 (between self.now.limits i)) × (result ≤ 4080) }
    {
        let mut s: u32 = 0;
        for j in 0..8 {
            let out = self.limits[i][j];
            let into = self.back[i][j];
            s += u32::from(out) + u32::from(into);
        }
        s
    }

    // Stations n and above have no allowance, and each station's allowance and limits are at most t together.
    fn allowances_fit(&self, h: Header) -> bool
        ensures { result ≡ (every 8 (allowance_below h.n h.allowances) && within_ceiling h.t h.allowances self.now.limits) }
    {
        let top = usize::from(h.n);
        let ceiling = u32::from(h.t);
        for i in 0..8 {
            let own = h.allowances[i];
            if !(((i < top) | (own == 0)) & (u32::from(own) + self.around(i) <= ceiling)) {
                return false;
            }
        }
        true
    }
}

// Station i has no link to stations n and above, and none at all where it is one of them.
fn row_below(n: u8, limits: [[u8; 8]; 8], i: usize) -> bool
    requires { i < 8 }
    ensures { result ≡ every 8 (limit_below n limits i) }
{
    let top = usize::from(n);
    for j in 0..8 {
        let out = limits[i][j];
        if !(((i < top) & (j < top)) | (out == 0)) {
            return false;
        }
    }
    true
}

// No link goes to or from stations n and above.
fn links_below(n: u8, limits: [[u8; 8]; 8]) -> bool
    ensures { result ≡ every 8 (λ (i : ℕ). every 8 (limit_below n limits i)) }
{
    for i in 0..8 {
        if !row_below(n, limits, i) {
            return false;
        }
    }
    true
}

// The network rules, on a header.
pub fn setup_fits(h: Header, limits: [[u8; 8]; 8]) -> bool
    ensures { result ≡ network_rules (header_config h limits) }
{
    let links = Links::new(limits);
    links.linked_both_ways()
        & (links_below(h.n, limits) & (reach::every_reached(h.n, limits) & links.allowances_fit(h)))
}
