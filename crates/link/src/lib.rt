// A link's queue in a lent part of 715 bytes: 34 places of 21 bytes.
#![tactic(auto)]

ghost use Rattle.std.specs.Prelude.{◌≡◌, [], ◌∷◌, ◌++◌, ◌<◌, ◌≤◌, length, drop, get_or, eqb, ◌&&◌, ◌||◌};
ghost use Rattle.codec.specs.Num.{bytes_of, nums_of};
ghost use Rattle.codec.specs.Every.{all_zero};
ghost use Rattle.reset.specs.Config.{places_of};
ghost use Rattle.reset.specs.Clock.{vector};
ghost use Rattle.reset.specs.State as state;
ghost use Rattle.link.specs.Image.{item_size, most_items, link_size, Queue, control_number, item_view, image_item, parse_item, image_link, item_at, items_test, sized};

use codec::Number;

// A link's part, and an item's place in it, in bytes.
pub const SIZE: usize = 715;

pub const ITEM_SIZE: usize = 21;

// The first byte of an item in a link's bytes, by its kind.
pub const MESSAGE: u8 = 1;

pub const RESET_REQ: u8 = 2;

pub const RESET_DONE: u8 = 3;

// How many items a link with a limit holds at most.
pub fn places(limit: u8) -> u32
    ensures { (result ≡ places_of limit) × (result < 258) }
{
    u32::from(limit) + 2
}

// What the reset rules put on links.
#[derive(Clone, Copy, Debug, PartialEq, Eq)]
pub enum Control {
    ResetReq,
    ResetDone,
}

impl From<Control> for u8 {
    ghost from_gives = { λ control kind. kind ≡ control_number control };

    fn from(control: Control) -> u8 {
        match control {
            Control::ResetReq => RESET_REQ,
            Control::ResetDone => RESET_DONE,
        }
    }
}

#[derive(Clone, Copy, Debug, PartialEq, Eq)]
pub enum Item {
    Message { register: u32, counts: [u16; 8] },
    Control(Control),
}

// The item in a place of 21 bytes. A slice, and no array: all places are of the lent area.
fn load(part: &[u8]) -> Item
    requires { length part.now ≡ item_size }
    ensures { item_view result ≡ parse_item part.now }
{
    match part[0] {
        RESET_REQ => Item::Control(Control::ResetReq),
        RESET_DONE => Item::Control(Control::ResetDone),
        _ => Item::Message {
            register: u32::get(part, 1),
            counts: codec::get_row(part, 5),
        },
    }
}

// Fills a place of 21 bytes: kind, register number, counts.
fn store_fields(part: &mut [u8], kind: u8, register: u32, counts: [u16; 8])
    requires { length part.old ≡ item_size }
    ensures { part.new ≡ (kind ∷ []) ++ bytes_of 4 register ++ nums_of 2 8 counts }
{
    register.put(part, 1);
    codec::put_row(part, 5, counts);
    part[0] = kind;
}

// Writes an item into a place of 21 bytes.
fn store(part: &mut [u8], x: Item)
    requires { length part.old ≡ item_size }
    ensures { part.new ≡ image_item (item_view x) }
{
    match x {
        Item::Message { register, counts } => store_fields(part, MESSAGE, register, counts),
        Item::Control(control) => store_fields(part, u8::from(control), 0, [0u16; 8]),
    }
}

// A place of 21 bytes holds a control item: all but its kind is 0.
fn is_control(part: &[u8]) -> bool
    requires { length part.now ≡ item_size }
    ensures { result ≡ ((eqb (get_or part.now 0 0) 2 || eqb (get_or part.now 0 0) 3) && all_zero (drop 1 part.now)) }
{
    let kind = part[0];
    ((kind == RESET_REQ) | (kind == RESET_DONE)) & codec::zeros(&part[1..])
}

// The part holds at most `places` items, each in range. What stands behind them is not looked at. The greatest counts of all
// messages are tested, once.
pub fn items_fit(places: u32, n: u8, t: u16, part: &[u8]) -> bool
    requires { (length part.now ≡ link_size) × (places ≤ most_items) }
    ensures { result ≡ items_test places (sized n t) part.now }
{
    let b = part[0];
    if places < u32::from(b) {
        return false;
    }
    let mut most = [0u16; 8];
    for k in 0..usize::from(b) {
        let item = queue::place(part, ITEM_SIZE, k);
        if item[0] == MESSAGE {
            // A call's result goes into no array that is lent: it has a name first.
            let more = clock::merge(most, codec::get_row(item, 5));
            most = more;
            continue;
        }
        if !is_control(item) {
            return false;
        }
    }
    clock::counts_fit(most, n, t)
}

// The first item, which stays.
pub fn first(part: &[u8]) -> Item
    requires { length part.now ≡ link_size }
    ensures { item_view result ≡ item_at part.now 0 }
{
    load(queue::place(part, ITEM_SIZE, 0))
}

// Puts an item behind the others.
pub fn push(part: &mut [u8], x: Item)
    requires { (length part.old ≡ link_size) × (get_or part.old 0 0 < most_items) }
    ensures { (q : Queue) → part.old ≡ image_link q → part.new ≡ image_link (q ++ (item_view x ∷ [])) }
{
    let mut item = [0u8; ITEM_SIZE];
    store(&mut item, x);
    queue::push(part, ITEM_SIZE, &item);
}

// Takes the first item off.
pub fn pop(part: &mut [u8])
    requires { (length part.old ≡ link_size) × (0 < get_or part.old 0 0) × (get_or part.old 0 0 ≤ most_items) }
    ensures { (x : state.Item vector) (q : Queue) → part.old ≡ image_link (x ∷ q) → part.new ≡ image_link q }
{
    queue::pop(part, ITEM_SIZE);
}
