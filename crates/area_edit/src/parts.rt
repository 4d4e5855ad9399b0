// Parts of the state area read and changed in place: each change writes its part and no other. The area is lent by a caller as a slice, whose length
// the calls for people outside refuse or take; a type of that length would be made anew from the slice at each of them.
ghost use Rattle.std.specs.Prelude.{◌≡◌, List, ◌∷◌, ◌+◌, ◌*◌, ◌<◌, ◌≤◌, length, get_or};
ghost use Rattle.reset.specs.Config.{Config};
ghost use Rattle.reset.specs.Clock.{vector};
ghost use Rattle.reset.specs.State.{Item as NetworkItem, State, link_at, set_station, set_link, put_on};
ghost use Rattle.station.specs.Image.{station_size, parse_station};
ghost use Rattle.station.specs.View.{station_view};
ghost use Rattle.link.specs.Image.{most_items, link_size, item_at, item_view};
ghost use Rattle.area.specs.Layout.{area_size, stations_from, links_from, image, station_bytes, link_bytes};

use link::Item;
use station::Station;

// Where the part of station i starts.
fn station_start(i: usize) -> usize
    requires { i < 8 }
    ensures { (result ≡ stations_from + i * station_size) × (result ≤ 841) }
{
    area::STATIONS + i * station::SIZE
}

// Where the part of the link from i to j starts.
fn link_start(i: usize, j: usize) -> usize
    requires { (i < 8) × (j < 8) }
    ensures { (result ≡ links_from + (i * 8 + j) * link_size) × (result ≤ 45933) }
{
    area::LINKS + (i * 8 + j) * link::SIZE
}

// The record of station i.
pub fn load_station(area: &[u8], i: usize) -> Station
    requires { (length area.now ≡ area_size) × (i < 8) }
    ensures { station_view result ≡ parse_station (station_bytes area.now i) }
{
    let o = station_start(i);
    station::load(&area[o..o + station::SIZE])
}

pub fn put_station(area: &mut [u8], i: usize, x: Station)
    requires { (length area.old ≡ area_size) × (i < 8) }
    ensures { (c : Config) (s : State vector) → area.old ≡ image c s → area.new ≡ image c (set_station s i (station_view x)) }
{
    let o = station_start(i);
    station::store(&mut area[o..o + station::SIZE], x);
}

// How many items the link from i to j holds.
pub fn count_at(area: &[u8], i: usize, j: usize) -> u8
    requires { (length area.now ≡ area_size) × (i < 8) × (j < 8) }
    ensures { result ≡ get_or (link_bytes area.now (i * 8 + j)) 0 0 }
{
    area[link_start(i, j)]
}

// The first item of the link from i to j.
pub fn first_at(area: &[u8], i: usize, j: usize) -> Item
    requires { (length area.now ≡ area_size) × (i < 8) × (j < 8) }
    ensures { item_view result ≡ item_at (link_bytes area.now (i * 8 + j)) 0 }
{
    let o = link_start(i, j);
    link::first(&area[o..o + link::SIZE])
}

// The first item of the link from i to j is taken off.
pub fn take_at(area: &mut [u8], i: usize, j: usize)
    requires { (length area.old ≡ area_size) × (i < 8) × (j < 8) × (0 < get_or (link_bytes area.old (i * 8 + j)) 0 0) × (get_or (link_bytes area.old (i * 8 + j)) 0 0 ≤ most_items) }
    ensures { (c : Config) (s : State vector) (x : NetworkItem vector) (q : List (NetworkItem vector)) → area.old ≡ image c s → link_at s i j ≡ x ∷ q → area.new ≡ image c (set_link s i j q) }
{
    let o = link_start(i, j);
    link::pop(&mut area[o..o + link::SIZE]);
}

// An item is put on the link from i to j, behind what it holds.
pub fn push_at(area: &mut [u8], i: usize, j: usize, x: Item)
    requires { (length area.old ≡ area_size) × (i < 8) × (j < 8) × (get_or (link_bytes area.old (i * 8 + j)) 0 0 < most_items) }
    ensures { (c : Config) (s : State vector) → area.old ≡ image c s → area.new ≡ image c (put_on s i j (item_view x)) }
{
    let o = link_start(i, j);
    link::push(&mut area[o..o + link::SIZE], x);
}
