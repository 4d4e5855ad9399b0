// The calls for a host, on numbers and slices: the interface that C calls, so that each lends bytes of any length and answers a number, and tests the
// length of the record area before the step.
#![tactic(auto)]

ghost use Rattle.std.specs.Prelude.{◌≡◌, length};
ghost use Rattle.refusals.specs.Numbers.{told};
ghost use Rattle.step_parts.specs.Answers.{step_view};
ghost use Rattle.archive.specs.Archive.{count_records};
ghost use Rattle.reset.specs.Steps.{enter as Enter, send as Send, recv as Recv, start as Start};
ghost use Rattle.verdict.specs.Compare.{verdict_on};
ghost use Rattle.phase_order.specs.ByNumber.{order_of};
ghost use Rattle.entries.specs.Entries.{write_entries, read_entries, read_record};
ghost use Rattle.area_calls.specs.Calls.{setup_on, rest_on, receipts_on};
ghost use Rattle.host_numbers.specs.Numbers.{record_length, block_number, rest_number, receipts_number, verdict_number, counted_number, code_number};
ghost use Rattle.melontime.specs.Calls.{Returns, event_after};
ghost use Rattle.host_numbers.specs.Headers.{header_written, header_fields};
ghost use Rattle.melontime.specs.Archives.{record_found, HostList};

use host_numbers::{FIELDS, RECORD, done, refused};
use refusals::Refusal;
use step_parts::answer::Accepted;

// The number of a step's answer; an accepted entry's record is written.
fn tell(answer: Result<Accepted, Refusal>, event: &mut [u8]) -> u64
    requires { length event.old ≡ record_length }
    ensures { (result ≡ code_number (step_view answer).answer) × (event.new ≡ event_after event.old (step_view answer)) }
{
    match answer {
        Ok(Accepted::Entry { event: record, .. }) => record::store(event, record),
        Ok(Accepted::InMode { .. }) => {}
        Err(_) => {}
    }
    host_numbers::number_of(answer)
}

#[unsafe(no_mangle)]
pub extern "C" fn melontime_setup(block: &[u8], area: &mut [u8]) -> u64
    ensures { (result ≡ (setup_on block.now area.old).answer) × (area.new ≡ (setup_on block.now area.old).buffer) }
{
    done(setup::setup(block, area))
}

#[unsafe(no_mangle)]
pub extern "C" fn melontime_enter(
    area: &mut [u8],
    event: &mut [u8],
    station: u32,
    register: u32,
) -> u64
    ensures { Returns (Enter station register) area.old event.old result area.new event.new }
{
    if event.len() != RECORD {
        return refused(Refusal::BufferLength);
    }
    tell(network::enter(area, station, register), event)
}

#[unsafe(no_mangle)]
pub extern "C" fn melontime_send(
    area: &mut [u8],
    event: &mut [u8],
    station: u32,
    peer: u32,
    register: u32,
) -> u64
    ensures { Returns (Send station peer register) area.old event.old result area.new event.new }
{
    if event.len() != RECORD {
        return refused(Refusal::BufferLength);
    }
    tell(network::send(area, station, peer, register), event)
}

#[unsafe(no_mangle)]
pub extern "C" fn melontime_recv(area: &mut [u8], event: &mut [u8], station: u32, peer: u32) -> u64
    ensures { Returns (Recv station peer) area.old event.old result area.new event.new }
{
    if event.len() != RECORD {
        return refused(Refusal::BufferLength);
    }
    tell(network::recv(area, station, peer), event)
}

#[unsafe(no_mangle)]
pub extern "C" fn melontime_start(area: &mut [u8], event: &mut [u8], station: u32) -> u64
    ensures { Returns (Start station) area.old event.old result area.new event.new }
{
    if event.len() != RECORD {
        return refused(Refusal::BufferLength);
    }
    tell(network::start(area, station), event)
}

#[unsafe(no_mangle)]
pub extern "C" fn melontime_rest(area: &[u8]) -> u64
    ensures { result ≡ rest_number (rest_on area.now) }
{
    host_numbers::rest_number(quiescence::rest(area))
}

#[unsafe(no_mangle)]
pub extern "C" fn melontime_receipts_to_rest(area: &[u8]) -> u64
    ensures { result ≡ receipts_number (receipts_on area.now) }
{
    host_numbers::receipts_number(receipts::to_rest(area))
}

#[unsafe(no_mangle)]
pub extern "C" fn melontime_verdict(first: &[u8], second: &[u8]) -> u64
    ensures { result ≡ verdict_number (verdict_on first.now second.now) }
{
    host_numbers::verdict_number(verdict::compare(first, second))
}

#[unsafe(no_mangle)]
pub extern "C" fn melontime_write_entries(number: u32, records: &[u8], area: &mut [u8]) -> u64
    ensures { (result ≡ (write_entries number records.now area.old).answer) × (area.new ≡ (write_entries number records.now area.old).buffer) }
{
    done(entries::write(number, records, area))
}

#[unsafe(no_mangle)]
pub extern "C" fn melontime_read_entries(block: &[u8]) -> u64
    ensures { result ≡ block_number (read_entries block.now) }
{
    host_numbers::block_number(entries::read(block))
}

#[unsafe(no_mangle)]
pub extern "C" fn melontime_read_record(block: &[u8], k: u32, area: &mut [u8]) -> u64
    ensures { (result ≡ (read_record block.now k area.old).answer) × (area.new ≡ (read_record block.now k area.old).buffer) }
{
    done(entries::read_record(block, k as usize, area))
}

fn write_header(
    n: u32,
    t: u32,
    allowances: &[u8],
    limits: &[u8],
    area: &mut [u8],
) -> Result<(), Refusal>
    ensures { (told result ≡ (header_written n t allowances.now limits.now area.old).answer) × (area.new ≡ (header_written n t allowances.now limits.now area.old).buffer) }
{
    if !host_numbers::fields_fit(n, t, allowances, limits) {
        return Err(Refusal::Malformed);
    }
    let h = host_numbers::header_of(n as u8, t as u16, allowances);
    header::write(h, header::table_at(limits, 0), area)
}

#[unsafe(no_mangle)]
pub extern "C" fn melontime_write_header(
    n: u32,
    t: u32,
    allowances: &[u8],
    limits: &[u8],
    area: &mut [u8],
) -> u64
    ensures { (result ≡ (header_written n t allowances.now limits.now area.old).answer) × (area.new ≡ (header_written n t allowances.now limits.now area.old).buffer) }
{
    done(write_header(n, t, allowances, limits, area))
}

fn read_header(block: &[u8], fields: &mut [u8]) -> Result<(), Refusal>
    ensures { (told result ≡ (header_fields block.now fields.old).answer) × (fields.new ≡ (header_fields block.now fields.old).buffer) }
{
    if !header::well_made(block) {
        return Err(Refusal::Malformed);
    }
    if fields.len() < FIELDS {
        return Err(Refusal::BufferLength);
    }
    host_numbers::put_fields(fields, block);
    Ok(())
}

#[unsafe(no_mangle)]
pub extern "C" fn melontime_read_header(block: &[u8], fields: &mut [u8]) -> u64
    ensures { (result ≡ (header_fields block.now fields.old).answer) × (fields.new ≡ (header_fields block.now fields.old).buffer) }
{
    done(read_header(block, fields))
}

#[unsafe(no_mangle)]
pub extern "C" fn melontime_archive_records(archive: &[u8]) -> u64
    ensures { result ≡ counted_number (count_records archive.now) }
{
    host_numbers::counted_number(archive::count(archive))
}

fn copy_record(archive: &[u8], k: usize, area: &mut [u8]) -> Result<(), Refusal>
    ensures { (told result ≡ (record_found archive.now k area.old).answer) × (area.new ≡ (record_found archive.now k area.old).buffer) }
{
    archive::find(archive, k)?;
    if area.len() < RECORD {
        return Err(Refusal::BufferLength);
    }
    codec::put_bytes(area, 0, archive::record_at(archive, k));
    Ok(())
}

#[unsafe(no_mangle)]
pub extern "C" fn melontime_found_record(archive: &[u8], number: u64, area: &mut [u8]) -> u64
    ensures { (result ≡ (record_found archive.now number area.old).answer) × (area.new ≡ (record_found archive.now number area.old).buffer) }
{
    done(copy_record(archive, number as usize, area))
}

#[unsafe(no_mangle)]
pub extern "C" fn melontime_unordered(archive: &[u8], number: u64, list: &mut [u64]) -> u64
    ensures { HostList archive.now number list.old list.new result }
{
    host_numbers::counted_number(concurrent::unordered(archive, number as usize, list))
}

#[unsafe(no_mangle)]
pub extern "C" fn melontime_archive_verdict(archive: &[u8], first: u64, second: u64) -> u64
    ensures { result ≡ verdict_number (order_of archive.now first second) }
{
    host_numbers::verdict_number(phase_order::order_of(archive, first as usize, second as usize))
}
