// What the steps do to one station, by value: entries, messages, marks, and the reset rules with the control items that they send.
#![tactic(auto)]

ghost use Rattle.std.specs.Prelude.{◌≡◌, [], true, false, ℕ, suc, ◌+◌, ◌<◌, ◌≤◌, get_or};
ghost use Rattle.clock.specs.Range.{last_phase};
ghost use Rattle.clock.specs.Timestamp.{news};
ghost use Rattle.codec.specs.Put.{put};
ghost use Rattle.reset.specs.Config.{Config};
ghost use Rattle.reset.specs.Clock.{vector};
ghost use Rattle.reset.specs.Steps.{entered as Entered, sending as Sending, receiving as Receiving, news_of, with_req, with_done, begun, renewed, woken};
ghost use Rattle.station.specs.View.{station_view};
ghost use Rattle.reset_rules.specs.Raise.{raised_by};
ghost use Rattle.reset_rules.specs.Turn.{turned, started};
ghost use Rattle.reset_rules.specs.Slots.{every_seen, some_seen, slot_once, slot_all, slots_view, turned_view};

use link::Control;
use station::{Mode, Station};

// A station after the reset rules, with the control items that go on every link out, in order.
#[derive(Clone, Copy)]
pub struct Turned {
    pub station: Station,
    pub first: Option<Control>,
    pub second: Option<Control>,
}

// A station that has taken a message, and the news that this brought.
#[derive(Clone, Copy)]
pub struct Received {
    pub station: Station,
    pub news: u8,
}

fn one_more(sent: [u8; 8], j: usize) -> [u8; 8]
    requires { (j < 8) × (get_or sent j 0 < 255) }
    ensures { result ≡ put 0 sent j (suc (get_or sent j 0)) }
{
    let mut r = sent;
    r[j] = sent[j] + 1;
    r
}

fn marked(marks: [bool; 8], j: usize) -> [bool; 8]
    requires { j < 8 }
    ensures { result ≡ put false marks j true }
{
    let mut r = marks;
    r[j] = true;
    r
}

// Station i makes an own entry.
pub fn entered(s: Station, i: usize) -> Station
    requires { (i < 8) × (get_or s.counts i 0 < 65535) × (s.own < 65535) }
    ensures { station_view result ≡ Entered i (station_view s) }
{
    Station {
        counts: clock::advance(s.counts, i),
        own: s.own + 1,
        ..s
    }
}

// Station i sends a message to j.
pub fn sending(s: Station, i: usize, j: usize) -> Station
    requires { (i < 8) × (get_or s.counts i 0 < 65535) × (j < 8) × (get_or s.sent j 0 < 255) }
    ensures { station_view result ≡ Sending i j (station_view s) }
{
    Station {
        counts: clock::advance(s.counts, i),
        sent: one_more(s.sent, j),
        ..s
    }
}

// Station i's counts raised in place, by those of a message. Answers the news: how many of the other stations' counts grew.
pub fn raise(s: &mut Station, counts: [u16; 8], i: usize) -> u8
    requires { (i < 8) × (get_or s.old.counts i 0 < 65535) }
    ensures { (s.new ≡ raised_by i counts s.old) × (result ≡ news i s.old.counts s.new.counts) }
{
    let own = s.counts;
    let raised = clock::raise(own, counts, i);
    s.counts = raised;
    clock::news(own, raised, i)
}

// Station i takes a message with these counts: its own are raised.
pub fn receiving(s: Station, i: usize, counts: [u16; 8]) -> Received
    requires { (i < 8) × (get_or s.counts i 0 < 65535) }
    ensures { ((j : ℕ) → station_view result.station ≡ Receiving {K = vector} i j counts (station_view s)) × (result.news ≡ news_of i (station_view s) (station_view result.station)) }
{
    let mut x = s;
    let news = raise(&mut x, counts, i);
    Received { station: x, news }
}

// reset_req from j is seen.
pub fn with_req(s: Station, j: usize) -> Station
    requires { j < 8 }
    ensures { (station_view result ≡ with_req j (station_view s)) × (result.phase ≡ s.phase) }
{
    Station {
        reqs: marked(s.reqs, j),
        ..s
    }
}

// reset_done from j is seen.
pub fn with_done(s: Station, j: usize) -> Station
    requires { j < 8 }
    ensures { (station_view result ≡ with_done j (station_view s)) × (result.phase ≡ s.phase) }
{
    Station {
        dones: marked(s.dones, j),
        ..s
    }
}

// Begin: dones forgotten, mute.
fn begin(s: Station) -> Station
    ensures { station_view result ≡ begun (station_view s) }
{
    Station {
        dones: [false; 8],
        mode: Mode::Mute,
        ..s
    }
}

// Rule a: the station's reset.
fn renew(s: Station) -> Station
    requires { s.phase ≤ 1000002 }
    ensures { station_view result ≡ renewed (station_view s) }
{
    Station {
        counts: [0u16; 8],
        sent: [0u8; 8],
        reqs: [false; 8],
        phase: s.phase + 1,
        own: 0,
        mode: Mode::StandBy,
        ..s
    }
}

// Rule b: normal again.
fn wake(s: Station) -> Station
    ensures { station_view result ≡ woken (station_view s) }
{
    Station {
        mode: Mode::Normal,
        ..s
    }
}

// Seen from every neighbour.
fn every_seen(row: [u8; 8], marks: [bool; 8]) -> bool
    ensures { result ≡ every_seen row marks }
{
    let mut ok = true;
    for j in 0..8 {
        ok &= (row[j] == 0) | marks[j];
    }
    ok
}

// Seen from some neighbour.
fn some_seen(row: [u8; 8], marks: [bool; 8]) -> bool
    ensures { result ≡ some_seen row marks }
{
    let mut any = false;
    for j in 0..8 {
        any |= (row[j] != 0) & marks[j];
    }
    any
}

// The first rule that applies, once. The row holds the limits of the links out of the station.
fn turn_once(row: [u8; 8], t: Turned) -> Turned
    requires { t.station.phase ≤ 1000002 }
    ensures { ((c : Config) (i : ℕ) → get_or c.limits i [] ≡ row → slots_view result ≡ slot_once c i (slots_view t)) × (result.station.phase ≤ t.station.phase + 1) }
{
    let s = t.station;
    match s.mode {
        Mode::Mute if every_seen(row, s.reqs) => Turned {
            station: renew(s),
            second: Some(Control::ResetDone),
            ..t
        },
        Mode::StandBy if every_seen(row, s.dones) => Turned {
            station: wake(s),
            ..t
        },
        Mode::Normal if some_seen(row, s.reqs) => Turned {
            station: begin(s),
            first: Some(Control::ResetReq),
            ..t
        },
        _ => t,
    }
}

// The rules tried from the first again after each that applies: three at most do.
fn turn_all(row: [u8; 8], t: Turned) -> Turned
    requires { t.station.phase ≤ last_phase }
    ensures { (c : Config) (i : ℕ) → get_or c.limits i [] ≡ row → slots_view result ≡ slot_all c i (slots_view t) }
{
    let a = turn_once(row, t);
    let b = turn_once(row, a);
    turn_once(row, b)
}

// The reset rules run at station i.
pub fn turn(limits: [[u8; 8]; 8], i: usize, s: Station) -> Turned
    requires { (i < 8) × (s.phase ≤ last_phase) }
    ensures { (c : Config) → c.limits ≡ limits → turned_view result ≡ turned c i (station_view s) }
{
    turn_all(
        limits[i],
        Turned {
            station: s,
            first: None,
            second: None,
        },
    )
}

// Station i begins a reset, and the rules run.
pub fn start(limits: [[u8; 8]; 8], i: usize, s: Station) -> Turned
    requires { (i < 8) × (s.phase ≤ last_phase) }
    ensures { (c : Config) → c.limits ≡ limits → turned_view result ≡ started c i (station_view s) }
{
    turn_all(
        limits[i],
        Turned {
            station: begin(s),
            first: Some(Control::ResetReq),
            second: None,
        },
    )
}
