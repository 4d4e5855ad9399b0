// Setup: the image of the initial network, written front to back.
#![tactic(auto)]

ghost use Rattle.std.specs.Prelude.{◌≡◌, ◌<◌, not, eqb, length, get_or};
ghost use Rattle.refusals.specs.Numbers.{told};
ghost use Rattle.codec.specs.Rows.{upto};
ghost use Rattle.codec.specs.Splice.{splice};
ghost use Rattle.station.specs.View.{station_view};
ghost use Rattle.area_calls.specs.Calls.{setup_on};
ghost use Rattle.setup.specs.Limits.{initial_of, initial_bytes};

use refusals::Refusal;
use station::{Mode, Station};

// The neighbours of a station, by its row of limits. Written out: a loop needs an invariant that is longer.
fn neighbours(row: [u8; 8]) -> [bool; 8]
    ensures { result ≡ upto 8 (λ j. not (eqb (get_or row j 0) 0)) }
{
    [
        row[0] != 0,
        row[1] != 0,
        row[2] != 0,
        row[3] != 0,
        row[4] != 0,
        row[5] != 0,
        row[6] != 0,
        row[7] != 0,
    ]
}

// The initial record of station i.
fn initial_station(limits: [[u8; 8]; 8], i: usize) -> Station
    requires { i < 8 }
    ensures { station_view result ≡ initial_of limits i }
{
    Station {
        counts: [0u16; 8],
        sent: [0u8; 8],
        reqs: [false; 8],
        dones: neighbours(limits[i]),
        phase: 0,
        own: 0,
        mode: Mode::Normal,
    }
}

fn put_stations(area: &mut [u8], limits: [[u8; 8]; 8])
    requires { length area.old ≡ 65536 }
    ensures { area.new ≡ splice area.old 512 (initial_bytes limits 8) }
{
    for i in 0..8 {
        let o = area::STATIONS + i * station::SIZE;
        let e = o + station::SIZE;
        station::store(&mut area[o..e], initial_station(limits, i));
    }
}

// Makes the area the initial network of a header block.
pub fn setup(block: &[u8], area: &mut [u8]) -> Result<(), Refusal>
    ensures { (told result ≡ (setup_on block.now area.old).answer) × (area.new ≡ (setup_on block.now area.old).buffer) }
{
    if area.len() != area::SIZE {
        return Err(Refusal::BufferLength);
    }
    let header = header::read(block)?;
    let limits = header::load_limits(block);
    if !rules::setup_fits(header, limits) {
        return Err(Refusal::NetworkRule);
    }
    codec::put_bytes(area, 0, block);
    put_stations(area, limits);
    codec::put_zeros(area, area::LINKS, area::BEHIND_STATIONS);
    Ok(())
}
