// Own entries and sends over an area that passed its test: every refusal is decided before anything is written.
#![tactic(auto)]

ghost use Rattle.std.specs.Prelude.{◌≡◌, true, ◌+◌, ◌*◌, ◌≤◌, ◌<◌, length, get_or};
ghost use Rattle.refusals.specs.Numbers.{told};
ghost use Rattle.reset.specs.Steps.{enter as Enter, send as Send, may_send};
ghost use Rattle.station.specs.View.{mode_view, station_view};
ghost use Rattle.link.specs.Image.{most_items};
ghost use Rattle.area.specs.Layout.{area_size, link_bytes, test};
ghost use Rattle.step_parts.specs.Does.{Does};
ghost use Rattle.enter_send.specs.Sending.{send_refusal, Sends};

use area_edit::parts;
use link::Item;
use record::Kind;
use refusals::Refusal;
use station::{Mode, Station};
use step_parts::answer;
use step_parts::answer::Accepted;
use step_parts::config::Config;

pub fn enter(area: &mut [u8], station: u32, register: u32) -> Result<Accepted, Refusal>
    requires { test area.old ≡ true }
    ensures { Does (Enter station register) area.old result area.new }
{
    let config = Config::read(&area[..]);
    let i = config.station(station)?;
    let s = parts::load_station(&area[..], i);
    if config.header.allowances[i] <= s.own {
        return Err(Refusal::UsedUp);
    }
    if config.header.t <= s.counts[i] {
        return Err(Refusal::IllFormedState);
    }
    let after = reset_rules::entered(s, i);
    parts::put_station(area, i, after);
    Ok(Accepted::entry(
        Kind::Own,
        i as u8,
        answer::NO_PEER,
        register,
        after,
        answer::NO_NEWS,
    ))
}

fn may_send(mode: Mode, done: bool) -> bool
    ensures { result ≡ may_send (mode_view mode) done }
{
    match mode {
        Mode::Normal => true,
        Mode::Mute => false,
        Mode::StandBy => done,
    }
}

// Refused where the mode forbids a send over a link, the link's limit is used up, or a bound is met.
fn admit(s: Station, t: u16, limit: u8, count: u8, i: usize, j: usize) -> Result<(), Refusal>
    requires { (i < 8) × (j < 8) × (limit ≤ 32) }
    ensures { told result ≡ send_refusal (station_view s) t limit count i j }
{
    if !may_send(s.mode, s.dones[j]) {
        return Err(Refusal::ModeForbids);
    }
    if limit <= s.sent[j] {
        return Err(Refusal::UsedUp);
    }
    if t <= s.counts[i] {
        return Err(Refusal::IllFormedState);
    }
    if link::places(limit) <= u32::from(count) {
        return Err(Refusal::IllFormedState);
    }
    Ok(())
}

// Station i's message goes on its link to j.
fn send_message(area: &mut [u8], s: Station, i: usize, j: usize, register: u32) -> Accepted
    requires { (length area.old ≡ area_size) × (i < 8) × (j < 8) × (get_or s.counts i 0 < 65535) × (get_or s.sent j 0 < 255) × (get_or (link_bytes area.old (i * 8 + j)) 0 0 < most_items) }
    ensures { Sends (station_view s) i j register area.old result area.new }
{
    let x = reset_rules::sending(s, i, j);
    let counts = x.counts;
    parts::push_at(area, i, j, Item::Message { register, counts });
    parts::put_station(area, i, x);
    Accepted::entry(Kind::Sent, i as u8, j as u8, register, x, answer::NO_NEWS)
}

pub fn send(area: &mut [u8], station: u32, peer: u32, register: u32) -> Result<Accepted, Refusal>
    requires { test area.old ≡ true }
    ensures { Does (Send station peer register) area.old result area.new }
{
    let config = Config::read(&area[..]);
    let (i, j) = config.link(station, peer)?;
    let s = parts::load_station(&area[..], i);
    let count = parts::count_at(&area[..], i, j);
    admit(s, config.header.t, config.limits[i][j], count, i, j)?;
    Ok(send_message(area, s, i, j, register))
}
