// What the rules lead a station to: the test that it is within its bounds, and how it is written.
ghost use Rattle.std.specs.Prelude.{◌≡◌, [], ◌≤◌, ◌<◌, length, get_or};
ghost use Rattle.area.specs.Layout.{area_size};
ghost use Rattle.area_edit.specs.Room.{Roomy};
ghost use Rattle.step_parts.specs.Room.{room_bytes, items as Items, in_bounds_after};
ghost use Rattle.step_parts.specs.Settles.{Settles};

use crate::answer::Accepted;
use area_edit::{controls, parts};
use reset_rules::Turned;

// Every link out of i has room for k items more. No early exit, so that the row is vectorised.
fn room(area: &[u8], row: [u8; 8], i: usize, k: u32) -> bool
    requires { (length area.now ≡ area_size) × (i < 8) × (k ≤ 2) }
    ensures { result ≡ room_bytes area.now row i k }
{
    let mut ok = true;
    for j in 0..8 {
        let count = u32::from(parts::count_at(area, i, j));
        let limit = row[j];
        ok &= (limit == 0) | (count + k <= link::places(limit));
    }
    ok
}

// The phase that the rules lead to, and the room on the links out.
pub fn in_bounds(area: &[u8], limits: [[u8; 8]; 8], i: usize, t: Turned) -> bool
    requires { (length area.now ≡ area_size) × (i < 8) }
    ensures { result ≡ in_bounds_after area.now (get_or limits i []) i t }
{
    let items = u32::from(t.first.is_some()) + u32::from(t.second.is_some());
    (t.station.phase <= clock::LAST_PHASE) & room(area, limits[i], i, items)
}

// The station's record and its control items are written.
pub fn settle(area: &mut [u8], limits: [[u8; 8]; 8], i: usize, t: Turned) -> Accepted
    requires { (length area.old ≡ area_size) × (i < 8) × Roomy area.old limits i (Items t) }
    ensures { Settles limits i t area.old result area.new }
{
    parts::put_station(area, i, t.station);
    controls::put_controls(area, limits, i, t.first, t.second);
    Accepted::in_mode(t.station)
}
