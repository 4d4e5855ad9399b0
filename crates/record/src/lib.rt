// The 32-byte record of an event: tested, read and written.
#![tactic(auto)]

ghost use Rattle.std.specs.Prelude.{◌≡◌, [], ◌∷◌, ◌&&◌, cond, ◌*◌, ◌≤◌, ◌<◌, eqb, ltb, length, get_or};
ghost use Rattle.codec.specs.Num.{num_at};
ghost use Rattle.codec.specs.Splice.{splice};
ghost use Rattle.record.specs.Record.{image_record, kind_byte, parse_record, peer_fits, record_fits, well_made_record};

use codec::Number;

// An event: kind 1 own, 2 sent, 3 received; the peer of an own event is 255.
#[derive(Clone, Copy, Debug, PartialEq, Eq)]
pub struct Record {
    pub kind: u8,
    pub station: u8,
    pub peer: u8,
    pub phase: u32,
    pub register: u32,
    pub counts: [u16; 8],
}

// Kinds of events. A record keeps a byte, since records of any bytes are parsed and tested.
#[derive(Clone, Copy, Debug, PartialEq, Eq)]
pub enum Kind {
    Own,
    Sent,
    Received,
}

impl From<Kind> for u8 {
    ghost from_gives = { λ kind b. b ≡ kind_byte kind };

    fn from(kind: Kind) -> u8 {
        match kind {
            Kind::Own => 1,
            Kind::Sent => 2,
            Kind::Received => 3,
        }
    }
}

// The kind, doubled where the peer is 255: 2 or 3 in a record.
fn doubled(kind: u8, peer: u8) -> u16
    ensures { result ≡ cond (eqb peer 255) (2 * kind) kind }
{
    let k = u16::from(kind);
    if peer == 255 { 2 * k } else { k }
}

fn peer_fits(kind: u8, station: u8, peer: u8) -> bool
    requires { station < 8 }
    ensures { result ≡ peer_fits kind station peer }
{
    (peer != station) & ((doubled(kind, peer) / 2 == 1) & ((peer < 8) | (peer == 255)))
}

// Every field is in its range.
pub fn record_fits(r: Record) -> bool
    ensures { result ≡ record_fits r }
{
    if 8 <= r.station {
        return false;
    }
    let own = r.counts[usize::from(r.station)];
    peer_fits(r.kind, r.station, r.peer) & ((r.phase <= clock::LAST_PHASE) & (1 <= own))
}

pub fn load(s: &[u8]) -> Record
    requires { 32 ≤ length s.now }
    ensures { result ≡ parse_record s.now }
{
    Record {
        kind: s[0],
        station: s[1],
        peer: s[2],
        phase: u32::get(s, 4),
        register: u32::get(s, 8),
        counts: codec::get_row(s, 16),
    }
}

// Writes bytes 0 to 3: kind, station, peer and a spare byte.
fn store_front(d: &mut [u8], kind: u8, station: u8, peer: u8)
    requires { 32 ≤ length d.old }
    ensures { d.new ≡ splice d.old 0 (kind ∷ station ∷ peer ∷ 0 ∷ []) }
{
    d[0] = kind;
    d[1] = station;
    d[2] = peer;
    d[3] = 0;
}

// Writes a record to the first 32 bytes, and leaves the rest.
pub fn store(d: &mut [u8], r: Record)
    requires { 32 ≤ length d.old }
    ensures { d.new ≡ splice d.old 0 (image_record r) }
{
    store_front(d, r.kind, r.station, r.peer);
    r.phase.put(d, 4);
    r.register.put(d, 8);
    0u32.put(d, 12);
    codec::put_row(d, 16, r.counts);
}

// The spare bytes, and what of the station is above 7, joined: 0 in a record.
fn spare(s: &[u8]) -> u32
    requires { 32 ≤ length s.now }
    ensures { eqb result 0 ≡ (eqb (get_or s.now 3 0) 0 && (eqb (num_at 4 s.now 12) 0 && ltb (get_or s.now 1 0) 8)) }
{
    u32::from(s[3]) | (u32::get(s, 12) | u32::from(s[1] / 8))
}

// The bytes are a record: its length, its spare bytes and its fields are right.
pub fn well_made(s: &[u8]) -> bool
    ensures { result ≡ well_made_record s.now }
{
    if s.len() != 32 {
        return false;
    }
    if spare(s) != 0 {
        return false;
    }
    let i = usize::from(s[1]);
    peer_fits(s[0], s[1], s[2])
        & ((u32::get(s, 4) <= clock::LAST_PHASE) & (1 <= u16::get(s, 16 + i * 2)))
}
