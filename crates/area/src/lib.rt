// The test of the state area, where it stands: no state is made of it.
#![tactic(auto)]

ghost use Rattle.std.specs.Prelude.{◌≡◌, true, ◌&&◌, ◌-◌, ◌*◌, ◌+◌, ◌/◌, ◌%◌, ◌≤◌, ◌<◌, length, take, drop};
ghost use Rattle.codec.specs.Every.{all_zero};
ghost use Rattle.reset.specs.Config.{well_made, places};
ghost use Rattle.rules.specs.Setup.{block_config};
ghost use Rattle.link.specs.Image.{most_items, link_size, items_test, sized};
ghost use Rattle.area.specs.Layout.{area_size, links_from, zeros_from, link_bytes, stations_test, links_test, parts_test, test};

use codec::Number;

// The area in bytes; where its stations and its links begin, and how many bytes stand behind the stations.
pub const SIZE: usize = 65536;

pub const STATIONS: usize = 512;

pub const LINKS: usize = 888;

pub const BEHIND_STATIONS: usize = 64648;

// Zeros from one place to another. Most areas start at a multiple of 16, where 16 bytes are read fastest.
fn blank_between(a: &[u8], from: usize, to: usize) -> bool
    requires { (from ≤ to) × (to ≤ length a.now) }
    ensures { result ≡ all_zero (take (to - from) (drop from a.now)) }
{
    codec::zero_run(&a[from..to], 16 - from % 16)
}

// An area with a header block that is well made, and that block.
#[derive(Clone, Copy)]
struct Area<'a> {
    head: &'a [u8],
    area: &'a [u8],
    ghost block: { length head.now ≡ 512 },
    ghost long: { length area.now ≡ area_size },
    ghost made: { well_made (block_config head.now) ≡ true },
}

impl<'a> Area<'a> {
    // How many items link k can hold, by its limit in the header block.
    fn places_of(self, k: usize) -> u32
        requires { k < 64 }
        ensures { (result ≡ places (block_config self.entry.head.now) (k / 8) (k % 8)) × (result ≤ most_items) }
    {
        let limit = self.head[32 + k];
        if limit == 0 {
            return 0;
        }
        link::places(limit)
    }

    fn stations_fit(self) -> bool
        ensures { result ≡ stations_test (block_config self.entry.head.now) self.entry.area.now }
    {
        for i in 0..8 {
            let o = STATIONS + i * station::SIZE;
            let e = o + station::SIZE;
            if !station::test(self.head, i, &self.area[o..e]) {
                return false;
            }
        }
        true
    }

    // The items of link k, and the zeros before it from a place on.
    fn link_fits(self, n: u8, t: u16, k: usize, from: usize) -> bool
        requires { (k < 64) × (from ≤ links_from + k * link_size) }
        ensures { result ≡ (items_test (places (block_config self.entry.head.now) (k / 8) (k % 8)) (sized n t) (link_bytes self.entry.area.now k) && all_zero (take (links_from + k * link_size - from) (drop from self.entry.area.now))) }
    {
        let o = LINKS + k * link::SIZE;
        let e = o + link::SIZE;
        if !link::items_fit(self.places_of(k), n, t, &self.area[o..e]) {
            return false;
        }
        blank_between(self.area, from, o)
    }

    // The links, and the zeros behind the last. Between the items of one and those of the next that has some is one run of
    // zeros, as no count in it is another number; the last reaches to the end.
    fn links_fit(self) -> bool
        ensures { result ≡ (links_test (block_config self.entry.head.now) self.entry.area.now && all_zero (drop zeros_from self.entry.area.now)) }
    {
        let n = self.head[1];
        let t = u16::get(self.head, 2);
        let mut from = LINKS;
        for k in 0..64 {
            let o = LINKS + k * link::SIZE;
            let b = self.area[o];
            if b != 0 {
                if !self.link_fits(n, t, k, from) {
                    return false;
                }
                from = o + (1 + usize::from(b) * link::ITEM_SIZE);
            }
        }
        blank_between(self.area, from, SIZE)
    }

    fn fit(self) -> bool
        ensures { result ≡ parts_test (block_config self.entry.head.now) self.entry.area.now }
    {
        if !rules::setup_fits(header::load(self.head), header::load_limits(self.head)) {
            return false;
        }
        if !self.stations_fit() {
            return false;
        }
        self.links_fit()
    }
}

// The area is the image of a well-formed state.
pub fn well_formed(a: &[u8]) -> bool
    ensures { result ≡ test a.now }
{
    if a.len() != SIZE {
        return false;
    }
    let head = &a[0..STATIONS];
    if !header::well_made(head) {
        return false;
    }
    Area { head, area: a }.fit()
}
