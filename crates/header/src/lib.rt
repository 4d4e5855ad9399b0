// The header block of an archive: 512 bytes with the network's fields.
#![tactic(auto)]

ghost use Rattle.std.specs.Prelude.{◌≡◌, [], ◌∷◌, ◌≤◌, ◌+◌, length, take, drop};
ghost use Rattle.codec.specs.Every.{all_zero};
ghost use Rattle.codec.specs.Splice.{splice};
ghost use Rattle.refusals.specs.Numbers.{told};
ghost use Rattle.header.specs.Header.{row_in_range, limits_in_range, header_fits, bytes_at, table_at, table_of, parse_header, well_made_header, image_header, write_header, read_header, read_limits};

use codec::Number;
use refusals::Refusal;

// The fields of a header but for the limits, which stand beside it as an array of arrays.
#[derive(Clone, Copy, Debug, PartialEq, Eq)]
pub struct Header {
    pub n: u8,
    pub t: u16,
    pub allowances: [u16; 8],
}

fn row_fits(row: [u8; 8]) -> bool
    ensures { result ≡ row_in_range row }
{
    let mut ok = true;
    for j in 0..8 {
        ok &= row[j] <= 32;
    }
    ok
}

// Every limit is at most 32.
fn limits_fit(limits: [[u8; 8]; 8]) -> bool
    ensures { result ≡ limits_in_range limits }
{
    for i in 0..8 {
        if !row_fits(limits[i]) {
            return false;
        }
    }
    true
}

// Every field is in its range.
fn header_fits(h: Header, limits: [[u8; 8]; 8]) -> bool
    ensures { result ≡ header_fits h limits }
{
    (1 <= h.n) & ((h.n <= 8) & ((1 <= h.t) & limits_fit(limits)))
}

// Eight bytes, from a place on.
pub fn bytes_at(s: &[u8], at: usize) -> [u8; 8]
    requires { at + 8 ≤ length s.now }
    ensures { result ≡ bytes_at 8 s.now at }
{
    [
        s[at],
        s[at + 1],
        s[at + 2],
        s[at + 3],
        s[at + 4],
        s[at + 5],
        s[at + 6],
        s[at + 7],
    ]
}

// Eight rows of eight limits, from a place on.
pub fn table_at(s: &[u8], at: usize) -> [[u8; 8]; 8]
    requires { at + 64 ≤ length s.now }
    ensures { result ≡ table_at 8 s.now at }
{
    [
        bytes_at(s, at),
        bytes_at(s, at + 8),
        bytes_at(s, at + 16),
        bytes_at(s, at + 24),
        bytes_at(s, at + 32),
        bytes_at(s, at + 40),
        bytes_at(s, at + 48),
        bytes_at(s, at + 56),
    ]
}

// The limits of a header block.
pub fn load_limits(s: &[u8]) -> [[u8; 8]; 8]
    requires { length s.now ≡ 512 }
    ensures { result ≡ table_at 8 s.now 32 }
{
    table_at(s, 32)
}

// The other fields of a header block.
pub fn load(s: &[u8]) -> Header
    requires { length s.now ≡ 512 }
    ensures { result ≡ parse_header s.now }
{
    Header {
        n: s[1],
        t: u16::get(s, 2),
        allowances: codec::get_row(s, 16),
    }
}

// Every limit of a header block is at most 32. No early exit, so that the loop is vectorised.
fn limits_small(s: &[u8]) -> bool
    requires { length s.now ≡ 512 }
    ensures { result ≡ limits_in_range (table_at 8 s.now 32) }
{
    let mut ok = true;
    for i in 0..64 {
        ok &= s[32 + i] <= 32;
    }
    ok
}

// Every field of a header block is in its range.
fn fields_fit(s: &[u8]) -> bool
    requires { length s.now ≡ 512 }
    ensures { result ≡ header_fits (parse_header s.now) (table_at 8 s.now 32) }
{
    (1 <= s[1]) & ((s[1] <= 8) & ((1 <= u16::get(s, 2)) & limits_small(s)))
}

// Bytes 96 to 509 are zero: in two parts that overlap, each a multiple of 16, the width of a vector.
fn rest_blank(s: &[u8]) -> bool
    requires { length s.now ≡ 512 }
    ensures { result ≡ all_zero (take 414 (drop 96 s.now)) }
{
    codec::zeros(&s[96..496]) & codec::zeros(&s[494..510])
}

// The bytes are a header block. The check comes last: where bytes 96 to 509 are zero it is of the first 96.
pub fn well_made(s: &[u8]) -> bool
    ensures { result ≡ well_made_header s.now }
{
    if s.len() != checksum::BLOCK {
        return false;
    }
    if !((s[0] == 1) & fields_fit(s)) {
        return false;
    }
    if !rest_blank(s) {
        return false;
    }
    codec::zeros(&s[4..16]) & checksum::sealed_front(s)
}

fn store_limits(d: &mut [u8], limits: [[u8; 8]; 8])
    requires { length d.old ≡ 512 }
    ensures { d.new ≡ splice d.old 32 (table_of limits) }
{
    for k in 0..64 {
        d[32 + k] = limits[k / 8][k % 8];
    }
}

// Writes bytes 0 and 1: the kind of block, and n.
fn store_front(d: &mut [u8], n: u8)
    requires { length d.old ≡ 512 }
    ensures { d.new ≡ splice d.old 0 (1 ∷ n ∷ []) }
{
    d[0] = 1;
    d[1] = n;
}

// Makes 512 bytes a header block.
fn store(d: &mut [u8], h: Header, limits: [[u8; 8]; 8])
    requires { length d.old ≡ 512 }
    ensures { d.new ≡ image_header h limits }
{
    store_front(d, h.n);
    h.t.put(d, 2);
    codec::put_zeros(d, 4, 12);
    codec::put_row(d, 16, h.allowances);
    store_limits(d, limits);
    codec::put_zeros(d, 96, 414);
    checksum::seal(d);
}

// Writes a header block into the first 512 bytes of a buffer; refused as malformed, or where the buffer is too small.
pub fn write(h: Header, limits: [[u8; 8]; 8], d: &mut [u8]) -> Result<(), Refusal>
    ensures { (told result ≡ (write_header h limits d.old).answer) × (d.new ≡ (write_header h limits d.old).buffer) }
{
    if !header_fits(h, limits) {
        return Err(Refusal::Malformed);
    }
    if d.len() < checksum::BLOCK {
        return Err(Refusal::BufferLength);
    }
    store(&mut d[0..checksum::BLOCK], h, limits);
    Ok(())
}

// The fields of a header block but for its limits.
pub fn read(s: &[u8]) -> Result<Header, Refusal>
    ensures { result ≡ read_header s.now }
{
    if !well_made(s) {
        return Err(Refusal::Malformed);
    }
    Ok(load(s))
}

// The limits of a header block; all 0 where the bytes are none.
pub fn read_limits(s: &[u8]) -> [[u8; 8]; 8]
    ensures { result ≡ read_limits s.now }
{
    if !well_made(s) {
        return [[0u8; 8]; 8];
    }
    load_limits(s)
}
