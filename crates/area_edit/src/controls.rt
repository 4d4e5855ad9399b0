// Control items put on every link out of a station.
ghost use Rattle.std.specs.Prelude.{◌≡◌, [], ◌++◌, ◌+◌, ◌*◌, ◌<◌, length, get_or};
ghost use Rattle.reset.specs.Config.{Config};
ghost use Rattle.reset.specs.Clock.{vector};
ghost use Rattle.reset.specs.State.{State, put_linked, put_on_all};
ghost use Rattle.link.specs.Image.{most_items, item_view};
ghost use Rattle.reset_rules.specs.Turn.{put_items};
ghost use Rattle.reset_rules.specs.Slots.{control_of};
ghost use Rattle.area.specs.Layout.{area_size, image, link_bytes};
ghost use Rattle.area_edit.specs.Room.{Roomy};

use link::{Control, Item};

// An item on the link from i to j, where there is one.
fn put_linked(area: &mut [u8], row: [u8; 8], i: usize, j: usize, x: Item)
    requires { (length area.old ≡ area_size) × (i < 8) × (j < 8) × ((get_or row j 0 ≡ 0 → ⊥) → get_or (link_bytes area.old (i * 8 + j)) 0 0 < most_items) }
    ensures { (c : Config) (s : State vector) → get_or c.limits i [] ≡ row → area.old ≡ image c s → area.new ≡ image c (put_linked c s i j (item_view x)) }
{
    if row[j] == 0 {
        return;
    }
    crate::parts::push_at(area, i, j, x);
}

// An item on every link out of i, in rising order of neighbour.
fn put_all(area: &mut [u8], limits: [[u8; 8]; 8], i: usize, x: Item)
    requires { (i < 8) × Roomy area.old limits i 1 }
    ensures { (c : Config) (s : State vector) → c.limits ≡ limits → area.old ≡ image c s → area.new ≡ image c (put_on_all c s i (item_view x)) }
{
    let row = limits[i];
    for j in 0..8 {
        put_linked(area, row, i, j, x);
    }
}

// A control item on every link out of i, where there is one.
fn put_control(area: &mut [u8], limits: [[u8; 8]; 8], i: usize, slot: Option<Control>)
    requires { (i < 8) × Roomy area.old limits i (length (control_of slot)) }
    ensures { (c : Config) (s : State vector) → c.limits ≡ limits → area.old ≡ image c s → area.new ≡ image c (put_items c s i (control_of slot)) }
{
    if let Some(control) = slot {
        put_all(area, limits, i, Item::Control(control));
    }
}

// Two control items, one after the other, on every link out of i.
pub fn put_controls(
    area: &mut [u8],
    limits: [[u8; 8]; 8],
    i: usize,
    first: Option<Control>,
    second: Option<Control>,
)
    requires { (i < 8) × Roomy area.old limits i (length (control_of first ++ control_of second)) }
    ensures { (c : Config) (s : State vector) → c.limits ≡ limits → area.old ≡ image c s → area.new ≡ image c (put_items c s i (control_of first ++ control_of second)) }
{
    put_control(area, limits, i, first);
    put_control(area, limits, i, second);
}
