// The numbers that a host's calls return, and the fields of a header as a host gives and takes them.
#![tactic(auto)]

ghost use Rattle.std.specs.Prelude.{◌≡◌, ◌≤◌, ◌+◌, length};
ghost use Rattle.codec.specs.Splice.{splice};
ghost use Rattle.header.specs.Header.{table_at, parse_header};
ghost use Rattle.refusals.specs.Numbers.{number_of as number_of_refusal, told as told_of};
ghost use Rattle.step_parts.specs.Answers.{step_view};
ghost use Rattle.quiescence.specs.View.{rest_view};
ghost use Rattle.receipts.specs.View.{receipts_view};
ghost use Rattle.host_numbers.specs.Numbers.{fields_length, greatest, block_number, rest_number, receipts_number, verdict_number, counted_number, code_number};
ghost use Rattle.host_numbers.specs.Headers.{fields_fit, header_given, field_bytes};

use clock::Verdict;
use entries::EntriesRead;
use header::Header;
use refusals::Refusal;
use step_parts::answer::Accepted;

// The host's numbers (docs/HOST.md). Lengths of a lent record and of a header's fields in bytes.
pub const RECORD: usize = 32;

pub const FIELDS: usize = 83;

// Answers that are no refusal: an entry, with the news added; rest; and from TOLD on an answer tells numbers, a mode beside MODES times a phase, or a
// count beside COUNTS times a block's number.
pub const ENTRY: u64 = 100;

pub const REST_YES: u64 = 100;

pub const REST_NO: u64 = 101;

pub const TOLD: u64 = 1000;

pub const MODES: u64 = 4;

pub const COUNTS: u64 = 16;

pub fn refused(refusal: Refusal) -> u64
    ensures { result ≡ number_of_refusal refusal }
{
    u64::from(u8::from(refusal))
}

// 0 for a call that only writes, when it is done.
pub fn done(answer: Result<(), Refusal>) -> u64
    ensures { result ≡ told_of answer }
{
    u64::from(refusals::told(answer))
}

pub fn number_of(answer: Result<Accepted, Refusal>) -> u64
    ensures { result ≡ code_number (step_view answer).answer }
{
    match answer {
        Ok(Accepted::Entry { news, .. }) => ENTRY + u64::from(news),
        Ok(Accepted::InMode { mode, phase }) => {
            TOLD + (MODES * u64::from(phase) + u64::from(u8::from(mode)))
        }
        Err(refusal) => refused(refusal),
    }
}

pub fn rest_number(answer: Result<bool, Refusal>) -> u64
    ensures { result ≡ rest_number (rest_view answer) }
{
    match answer {
        Ok(true) => REST_YES,
        Ok(false) => REST_NO,
        Err(refusal) => refused(refusal),
    }
}

pub fn receipts_number(answer: Result<u32, Refusal>) -> u64
    ensures { result ≡ receipts_number (receipts_view answer) }
{
    match answer {
        Ok(n) => TOLD + u64::from(n),
        Err(refusal) => refused(refusal),
    }
}

pub fn verdict_number(answer: Result<Verdict, Refusal>) -> u64
    ensures { result ≡ verdict_number answer }
{
    match answer {
        Ok(verdict) => u64::from(u8::from(verdict)),
        Err(refusal) => refused(refusal),
    }
}

pub fn block_number(answer: Result<EntriesRead, Refusal>) -> u64
    ensures { result ≡ block_number answer }
{
    match answer {
        Ok(read) => TOLD + (COUNTS * u64::from(read.number) + u64::from(read.count)),
        Err(refusal) => refused(refusal),
    }
}

pub fn counted_number(answer: Result<usize, Refusal>) -> u64
    requires { counted_number answer ≤ greatest }
    ensures { result ≡ counted_number answer }
{
    match answer {
        Ok(n) => TOLD + (n as u64),
        Err(refusal) => refused(refusal),
    }
}

// The fields of a header fit their bytes. The test of all four comes first, as its definition has it, so that no `TryFrom` has to tell the same twice.
pub fn fields_fit(n: u32, t: u32, allowances: &[u8], limits: &[u8]) -> bool
    ensures { result ≡ fields_fit n t allowances.now limits.now }
{
    (allowances.len() == 16) & ((limits.len() == 64) & ((n <= 255) & (t <= 65535)))
}

pub fn header_of(n: u8, t: u16, allowances: &[u8]) -> Header
    requires { length allowances.now ≡ 16 }
    ensures { result ≡ header_given n t allowances.now }
{
    let allowances = codec::get_row(allowances, 0);
    Header { n, t, allowances }
}

// The fields of a header block: its bytes 1 to 3 are n and t, then come the allowances from 16 and the limits from 32.
pub fn put_fields(fields: &mut [u8], block: &[u8])
    requires { (length block.now ≡ 512) × (fields_length ≤ length fields.old) }
    ensures { fields.new ≡ splice fields.old 0 (field_bytes (parse_header block.now) (table_at 8 block.now 32)) }
{
    codec::put_bytes(fields, 0, &block[1..4]);
    codec::put_bytes(fields, 3, &block[16..32]);
    codec::put_bytes(fields, 19, &block[32..96]);
}
