// Receipts to rest: how many receipts, in whichever order, empty the links of the network of an area.
#![tactic(auto)]

ghost use Rattle.std.specs.Prelude.{◌≡◌, true, ℕ, ◌*◌, ◌-◌, ◌<◌, ◌≤◌, length, get_or};
ghost use Rattle.codec.specs.Every.{sum};
ghost use Rattle.clock.specs.Range.{last_phase};
ghost use Rattle.reset.specs.Receipts.{target, greatest_target, messages, under_way, controls_taken, controls_left};
ghost use Rattle.station.specs.View.{station_view};
ghost use Rattle.link.specs.Image.{most_items, link_size, parse_link, sized};
ghost use Rattle.area.specs.Layout.{config_at, state_at, test};
ghost use Rattle.area_calls.specs.Calls.{receipts_on};
ghost use Rattle.receipts.specs.View.{receipts_view};

use refusals::Refusal;
use station::{Mode, Station};

// The target phase: a station's phase, or one more when mute.
fn target(x: Station) -> u32
    requires { x.phase ≤ last_phase }
    ensures { (result ≡ target (station_view x)) × (result ≤ 1000000) }
{
    x.phase + u32::from(x.mode == Mode::Mute)
}

// The greatest target of the stations below n. (That the area was tested stands in four contracts here: it is made by one call and read by four, and a
// type for it would be named as often.)
fn greatest_target(area: &[u8], n: u8) -> u32
    requires { (test area.now ≡ true) × (n ≤ 8) }
    ensures { (result ≡ greatest_target (sized n 0) (state_at area.now)) × (result ≤ 1000000) }
{
    let mut g: u32 = 0;
    for i in 0..usize::from(n) {
        let x = area_edit::parts::load_station(area, i);
        let aim = target(x);
        g = g.max(aim);
    }
    g
}

// How many items of a link are messages. Only their kinds are read.
fn messages_on(part: &[u8]) -> u32
    requires { (length part.now ≡ link_size) × (get_or part.now 0 0 ≤ most_items) }
    ensures { (result ≡ messages (parse_link part.now)) × (result ≤ most_items) }
{
    let mut m: u32 = 0;
    for k in 0..usize::from(part[0]) {
        let kind = part[1 + k * link::ITEM_SIZE];
        m += u32::from((kind != link::RESET_REQ) & (kind != link::RESET_DONE));
    }
    m
}

// The messages on all links; of a link that holds no item, the count alone is read.
fn messages_under_way(area: &[u8]) -> u32
    requires { test area.now ≡ true }
    ensures { (result ≡ under_way (state_at area.now)) × (result ≤ 2176) }
{
    let mut m: u32 = 0;
    for k in 0..64 {
        let o = area::LINKS + k * link::SIZE;
        m += messages_on(&area[o..o + link::SIZE]);
    }
    m
}

// What a station has still to receive from i beside messages, where g is the greatest target.
fn controls_left(x: Station, i: usize, g: u32) -> u32
    requires { (i < 8) × (x.phase ≤ last_phase) × (g ≤ 1000000) }
    ensures { (result ≡ 2 * g - controls_taken (station_view x) i) × (result ≤ 2000000) }
{
    let taken = x.phase + u32::from(x.reqs[i]) + (target(x) + u32::from(x.dones[i]));
    (2 * g).saturating_sub(taken.saturating_sub(1))
}

// The same of station j, from all its neighbours together. The limits stand from byte 32 on, row by row.
fn controls_to(area: &[u8], j: usize, g: u32) -> u32
    requires { (test area.now ≡ true) × (j < 8) × (g ≤ 1000000) }
    ensures { (result ≡ sum 8 (controls_left (config_at area.now) (state_at area.now) g j)) × (result ≤ 16000000) }
{
    let x = area_edit::parts::load_station(area, j);
    let mut left: u32 = 0;
    for i in 0..8 {
        if area[32 + (i * 8 + j)] != 0 {
            left += controls_left(x, i, g);
        }
    }
    left
}

// The same of all stations together.
fn all_controls(area: &[u8], g: u32) -> u32
    requires { (test area.now ≡ true) × (g ≤ 1000000) }
    ensures { (result ≡ sum 8 (λ (j : ℕ). sum 8 (controls_left (config_at area.now) (state_at area.now) g j))) × (result ≤ 128000000) }
{
    let mut left: u32 = 0;
    for j in 0..8 {
        left += controls_to(area, j, g);
    }
    left
}

// The number of receipts, or a refusal where the area is no image of a well-formed state.
pub fn to_rest(area: &[u8]) -> Result<u32, Refusal>
    ensures { receipts_view result ≡ receipts_on area.now }
{
    if !area::well_formed(area) {
        return Err(Refusal::IllFormedState);
    }
    let h = header::load(&area[0..area::STATIONS]);
    let messages = messages_under_way(area);
    let controls = all_controls(area, greatest_target(area, h.n));
    Ok(messages + controls)
}
