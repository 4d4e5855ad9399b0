// Receipts, and starts of a reset, over an area that passed its test: every refusal is decided before anything is written.
#![tactic(auto)]

ghost use Rattle.std.specs.Prelude.{◌≡◌, List, ◌∷◌, true, ◌≤◌};
ghost use Rattle.clock.specs.Range.{last_phase};
ghost use Rattle.reset.specs.Clock.{vector};
ghost use Rattle.reset.specs.State.{Item as NetworkItem, message, station_at, link_at};
ghost use Rattle.reset.specs.Steps.{recv as Recv, start as Start};
ghost use Rattle.station.specs.View.{station_view};
ghost use Rattle.rules.specs.Setup.{header_config};
ghost use Rattle.area.specs.Layout.{config_at, state_at, test};
ghost use Rattle.step_parts.specs.Does.{Does};
ghost use Rattle.recv_start.specs.Taking.{Holds, TakesControl};

use area_edit::parts;
use link::{Control, Item};
use record::Kind;
use refusals::Refusal;
use station::{Mode, Station};
use step_parts::answer::Accepted;
use step_parts::config::Config;
use step_parts::turned;

// Station i takes the control item first on the link from j; x is its record with the mark.
fn take_control(
    area: &mut [u8],
    limits: [[u8; 8]; 8],
    x: Station,
    i: usize,
    j: usize,
) -> Result<Accepted, Refusal>
    requires { Holds area.old i j × (limits ≡ (config_at area.old).limits) × (x.phase ≤ last_phase) }
    ensures { TakesControl (station_view x) i j area.old result area.new }
{
    let t = reset_rules::turn(limits, i, x);
    if !turned::in_bounds(&area[..], limits, i, t) {
        return Err(Refusal::IllFormedState);
    }
    parts::take_at(area, j, i);
    Ok(turned::settle(area, limits, i, t))
}

// Station i takes the message first on the link from j; s is its record.
fn take_message(
    area: &mut [u8],
    t: u16,
    s: Station,
    register: u32,
    counts: [u16; 8],
    i: usize,
    j: usize,
) -> Result<Accepted, Refusal>
    requires { Holds area.old i j × (t ≡ (config_at area.old).t) × (station_view s ≡ station_at (state_at area.old) i) }
    ensures { (q : List (NetworkItem vector)) → link_at (state_at area.old) j i ≡ message counts register ∷ q → Does (Recv i j) area.old result area.new }
{
    if t <= s.counts[i] {
        return Err(Refusal::IllFormedState);
    }
    let y = reset_rules::receiving(s, i, counts);
    parts::take_at(area, j, i);
    parts::put_station(area, i, y.station);
    Ok(Accepted::entry(
        Kind::Received,
        i as u8,
        j as u8,
        register,
        y.station,
        y.news,
    ))
}

// Station i takes the first item of the link from j.
fn take(area: &mut [u8], config: Config, i: usize, j: usize) -> Result<Accepted, Refusal>
    requires { Holds area.old i j × (header_config config.header config.limits ≡ config_at area.old) }
    ensures { Does (Recv i j) area.old result area.new }
{
    let s = parts::load_station(&area[..], i);
    match parts::first_at(&area[..], j, i) {
        Item::Message { register, counts } => {
            take_message(area, config.header.t, s, register, counts, i, j)
        }
        Item::Control(Control::ResetReq) => {
            take_control(area, config.limits, reset_rules::with_req(s, j), i, j)
        }
        Item::Control(Control::ResetDone) => {
            take_control(area, config.limits, reset_rules::with_done(s, j), i, j)
        }
    }
}

pub fn recv(area: &mut [u8], station: u32, peer: u32) -> Result<Accepted, Refusal>
    requires { test area.old ≡ true }
    ensures { Does (Recv station peer) area.old result area.new }
{
    let config = Config::read(&area[..]);
    let (i, j) = config.link(station, peer)?;
    if parts::count_at(&area[..], j, i) == 0 {
        return Err(Refusal::EmptyLink);
    }
    take(area, config, i, j)
}

pub fn start(area: &mut [u8], station: u32) -> Result<Accepted, Refusal>
    requires { test area.old ≡ true }
    ensures { Does (Start station) area.old result area.new }
{
    let config = Config::read(&area[..]);
    let i = config.station(station)?;
    let s = parts::load_station(&area[..], i);
    if s.mode != Mode::Normal {
        return Err(Refusal::ModeForbids);
    }
    if clock::LAST_PHASE <= s.phase {
        return Err(Refusal::NoMorePhases);
    }
    let t = reset_rules::start(config.limits, i, s);
    if !turned::in_bounds(&area[..], config.limits, i, t) {
        return Err(Refusal::IllFormedState);
    }
    Ok(turned::settle(area, config.limits, i, t))
}
