// A station's record by value, and in a lent part of 47 bytes.
#![tactic(auto)]

ghost use Rattle.std.specs.Prelude.{◌≡◌, ◌+◌, ◌<◌, ◌≤◌, cond, length};
ghost use Rattle.codec.specs.Splice.{splice};
ghost use Rattle.codec.specs.Rows.{upto};
ghost use Rattle.codec.specs.Every.{every};
ghost use Rattle.codec.specs.Num.{nums_at};
ghost use Rattle.clock.specs.Range.{counts_fit};
ghost use Rattle.rules.specs.Setup.{block_config};
ghost use Rattle.station.specs.Test.{sent_within_at, marks_within_at, station_test};
ghost use Rattle.station.specs.View.{mode_view, station_view};
ghost use Rattle.station.specs.Image.{station_size, mark_at, mode_of, mode_byte, marks_of, parse_station, image_station};

use codec::Number;

// A record in bytes.
pub const SIZE: usize = 47;

#[derive(Clone, Copy, Debug, PartialEq, Eq)]
pub enum Mode {
    Normal,
    Mute,
    StandBy,
}

// The number of a mode: 0 normal, 1 mute, 2 stand-by.
impl From<Mode> for u8 {
    ghost from_gives = { λ mode b. b ≡ mode_byte (mode_view mode) };

    fn from(mode: Mode) -> u8 {
        match mode {
            Mode::Normal => 0,
            Mode::Mute => 1,
            Mode::StandBy => 2,
        }
    }
}

// Any other number is read as 0.
impl From<u8> for Mode {
    ghost from_gives = { λ b mode. mode_view mode ≡ mode_of b };

    fn from(b: u8) -> Mode {
        match b {
            1 => Mode::Mute,
            2 => Mode::StandBy,
            _ => Mode::Normal,
        }
    }
}

// A station's record; the places of its arrays are for the eight stations.
#[derive(Clone, Copy)]
pub struct Station {
    pub counts: [u16; 8],
    pub sent: [u8; 8],
    pub reqs: [bool; 8],
    pub dones: [bool; 8],
    pub phase: u32,
    pub own: u16,
    pub mode: Mode,
}

// Written out: arrays have no `map` here.
fn marks_at(part: &[u8], at: usize) -> [bool; 8]
    requires { at + 8 ≤ length part.now }
    ensures { result ≡ upto 8 (mark_at part.now at) }
{
    let b = header::bytes_at(part, at);
    [
        b[0] != 0,
        b[1] != 0,
        b[2] != 0,
        b[3] != 0,
        b[4] != 0,
        b[5] != 0,
        b[6] != 0,
        b[7] != 0,
    ]
}

// The record in a part. A slice, and no array of 47 bytes: all parts are of the lent area.
pub fn load(part: &[u8]) -> Station
    requires { length part.now ≡ station_size }
    ensures { station_view result ≡ parse_station part.now }
{
    Station {
        counts: codec::get_row(part, 0),
        sent: header::bytes_at(part, 16),
        reqs: marks_at(part, 24),
        dones: marks_at(part, 32),
        phase: u32::get(part, 40),
        own: u16::get(part, 44),
        mode: Mode::from(part[46]),
    }
}

fn put_marks(part: &mut [u8], at: usize, marks: [bool; 8])
    requires { at + 8 ≤ length part.old }
    ensures { part.new ≡ splice part.old at (marks_of marks) }
{
    for j in 0..8 {
        part[at + j] = u8::from(marks[j]);
    }
}

// Makes a part the image of a record.
pub fn store(part: &mut [u8], s: Station)
    requires { length part.old ≡ station_size }
    ensures { part.new ≡ image_station (station_view s) }
{
    codec::put_row(part, 0, s.counts);
    codec::put_bytes(part, 16, &s.sent);
    put_marks(part, 24, s.reqs);
    put_marks(part, 32, s.dones);
    s.phase.put(part, 40);
    s.own.put(part, 44);
    part[46] = u8::from(s.mode);
}

// The greatest mode or phase of a station of the network; of any other both are 0.
fn bound(known: bool, most: u32) -> u32
    ensures { result ≡ cond known most 0 }
{
    if known { most } else { 0 }
}

// Each count is at most t, and 0 for stations n and above; all are 0 in the record of such a station. With a branch, the
// bounds are the same for every station, and are made once.
fn counts_fit(known: bool, n: u8, t: u16, part: &[u8]) -> bool
    requires { length part.now ≡ station_size }
    ensures { result ≡ counts_fit n (cond known t 0) (nums_at 2 8 part.now 0) }
{
    let counts = codec::get_row(part, 0);
    if known {
        return clock::counts_fit(counts, n, t);
    }
    clock::counts_fit(counts, n, 0)
}

// Messages sent within the limits of a row, which stands at o.
fn sent_fit(head: &[u8], o: usize, part: &[u8]) -> bool
    requires { (o + 8 ≤ length head.now) × (length part.now ≡ station_size) }
    ensures { result ≡ every 8 (sent_within_at head.now o part.now) }
{
    let mut ok = true;
    for j in 0..8 {
        ok &= part[16 + j] <= head[o + j];
    }
    ok
}

// Every mark is 0 or 1, and 0 where the row has no link.
fn marks_fit(head: &[u8], o: usize, part: &[u8]) -> bool
    requires { (o + 8 ≤ length head.now) × (length part.now ≡ station_size) }
    ensures { result ≡ every 8 (marks_within_at head.now o part.now) }
{
    let mut ok = true;
    for j in 0..8 {
        let most = u8::from(head[o + j] != 0);
        ok &= (part[24 + j] <= most) & (part[32 + j] <= most);
    }
    ok
}

// The bytes of a part are the image of a record of station i in its range, by the header block.
pub fn test(head: &[u8], i: usize, part: &[u8]) -> bool
    requires { (length head.now ≡ 512) × (i < 8) × (length part.now ≡ station_size) }
    ensures { result ≡ station_test (block_config head.now) i part.now }
{
    let n = head[1];
    let known = i < usize::from(n);
    let o = 32 + i * 8;
    counts_fit(known, n, u16::get(head, 2), part)
        & ((u32::from(part[46]) <= bound(known, 2))
            & ((u32::get(part, 40) <= bound(known, clock::LAST_PHASE))
                & ((u16::get(part, 44) <= u16::get(head, 16 + i * 2))
                    & (sent_fit(head, o, part) & marks_fit(head, o, part)))))
}
