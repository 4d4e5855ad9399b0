// The table of first bytes: what the first four bytes of a record may be, by the header of its archive.
#![tactic(auto)]

ghost use Rattle.std.specs.Prelude.{◌≡◌, ◌≤◌, ◌<◌, ◌+◌, ◌*◌, eqb, length, get_or};
ghost use Rattle.record.specs.Record.{kind_byte};
ghost use Rattle.header.specs.Header.{parse_header, table_at, well_made_header};
ghost use Rattle.front_table.specs.Fronts.{limit_of, Row, Fronts, place_of};

use record::Kind;

// What stands where the header allows no record: a number that is looked up elsewhere.
const ELSEWHERE: usize = 458752;

// The limit of the link that a sent or received record of station s and peer p names.
#[tactic(auto, using(header::proofs::Laws::table_at_lem), unfolding(crate::specs::Fronts::limit_of))]
fn limit(head: &[u8], kind: Kind, s: usize, p: usize) -> u8
    requires { (length head.now ≡ 512) × (s < 8) × (p < 8) }
    ensures { result ≡ limit_of (table_at 8 head.now 32) (kind_byte kind) s p }
{
    match kind {
        Kind::Sent => head[32 + (s * 8 + p)],
        Kind::Own | Kind::Received => head[32 + (p * 8 + s)],
    }
}

// The records of a kind with peer p, one for each station.
fn fill(r: &mut [u32; 256], head: &[u8], n: u8, kind: Kind, p: usize)
    requires { (length r.old ≡ 256) × (length head.now ≡ 512) × (2 ≤ kind_byte kind) × (p < 8) }
    ensures { Row n (table_at 8 head.now 32) (kind_byte kind * 8 + p) 8 r.old r.new }
{
    let number = usize::from(u8::from(kind));
    let top = usize::from(n);
    for s in 0..8 {
        let stands = (p < top) & (s != p) & (0 < limit(head, kind, s, p));
        let front = if stands {
            number + (256 * s + 65536 * p)
        } else {
            ELSEWHERE
        };
        r[(number * 8 + p) * 8 + s] = front as u32;
    }
}

// The first four bytes of the records that a header allows, as numbers, each in the place where it is looked up; elsewhere
// a number that is looked up in another place. A station that the header lacks has no count, which shuts its records out.
pub fn fronts(head: &[u8], n: u8) -> [u32; 256]
    requires { length head.now ≡ 512 }
    ensures { Fronts n (table_at 8 head.now 32) result }
{
    let mut r = [ELSEWHERE as u32; 256];
    for p in 0..8 {
        r[56 + p] = (16711681 + 256 * p) as u32;
        fill(&mut r, head, n, Kind::Sent, p);
        fill(&mut r, head, n, Kind::Received, p);
    }
    r
}

// A header block, whatever its other fields, and the first bytes of the records that it allows.
#[derive(Clone, Copy)]
pub struct Allowed<'a> {
    pub head: &'a [u8],
    pub fronts: [u32; 256],
    ghost block: { length head.now ≡ 512 },
    ghost few: { (parse_header head.now).n ≤ 8 },
    ghost stand: { Fronts (parse_header head.now).n (table_at 8 head.now 32) fronts },
}

impl<'a> Allowed<'a> {
    // A block with its table. The block in it is the one that was lent, and so passes its test just where that does.
    pub fn by(head: &'a [u8]) -> Allowed<'a>
        requires { (length head.now ≡ 512) × ((parse_header head.now).n ≤ 8) }
        ensures head { result.head.now ≡ head.now }
        ensures tested { well_made_header result.head.now ≡ well_made_header head.now }
    {
        Allowed {
            head,
            fronts: fronts(head, head[1]),
        }
    }
}

// Where a record's first four bytes are looked up.
pub fn place_of(x: u32) -> usize
    ensures { (result ≡ place_of x) × (result < 256) }
{
    (u64::from(x) * 1073809408 / 16777216 % 256) as usize
}

// Where a record's first four bytes differ from what stands in their place: 0 where they are right.
pub fn differ(known: &[u32; 256], x: u32) -> u32
    ensures { eqb result 0 ≡ eqb (get_or known.now (place_of x) 0) x }
{
    known[place_of(x)] ^ x
}
