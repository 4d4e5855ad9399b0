// Rest: whether the network of an area is quiescent.
#![tactic(auto)]

ghost use Rattle.std.specs.Prelude.{◌≡◌, ◌≤◌, length};
ghost use Rattle.reset.specs.Network.{stations_quiescent, links_empty};
ghost use Rattle.link.specs.Image.{sized};
ghost use Rattle.area.specs.Layout.{area_size, state_at};
ghost use Rattle.area_calls.specs.Calls.{rest_on};
ghost use Rattle.quiescence.specs.View.{rest_view};

use refusals::Refusal;
use station::Mode;

// Every station below n is normal, and in the phase of station 0.
fn stations_quiescent(area: &[u8], n: u8) -> bool
    requires { (length area.now ≡ area_size) × (n ≤ 8) }
    ensures { result ≡ stations_quiescent (sized n 0) (state_at area.now) }
{
    let start = area_edit::parts::load_station(area, 0);
    for i in 0..usize::from(n) {
        let x = area_edit::parts::load_station(area, i);
        if !((x.mode == Mode::Normal) & (x.phase == start.phase)) {
            return false;
        }
    }
    true
}

// No link holds an item: the first byte of each is the count of its items.
fn links_empty(area: &[u8]) -> bool
    requires { length area.now ≡ area_size }
    ensures { result ≡ links_empty (state_at area.now) }
{
    for k in 0..64 {
        if area[area::LINKS + k * link::SIZE] != 0 {
            return false;
        }
    }
    true
}

// Whether the network is at rest; a refusal where the area is no image of a well-formed state.
pub fn rest(area: &[u8]) -> Result<bool, Refusal>
    ensures { rest_view result ≡ rest_on area.now }
{
    if !area::well_formed(area) {
        return Err(Refusal::IllFormedState);
    }
    let h = header::load(&area[0..area::STATIONS]);
    Ok(stations_quiescent(area, h.n) && links_empty(area))
}
