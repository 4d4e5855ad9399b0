// A queue of items of one width in lent bytes: the count of its items, the items packed from the front, zeros after the last. The part of a caller's
// area is the queue, with no memory of its own, so there is no type for it.
#![tactic(auto)]

ghost use Rattle.std.specs.Prelude.{◌≡◌, ◌++◌, ◌+◌, ◌*◌, ◌-◌, ◌<◌, ◌≤◌, length, drop, get_or};
ghost use Rattle.codec.specs.Every.{blank};
ghost use Rattle.queue.specs.Queue.{place_at, pushed, popped};

// The bytes of place k.
pub fn place<'a>(part: &'a [u8], width: usize, k: usize) -> &'a [u8]
    requires { 1 + k * width + width ≤ length part.now }
    ensures { (result.now ≡ place_at width part.now k) × (length result.now ≡ width) }
{
    let o = 1 + k * width;
    &part[o..o + width]
}

// Puts an item behind the others.
pub fn push(part: &mut [u8], width: usize, item: &[u8])
    requires { (length item.now ≡ width) × (get_or part.old 0 0 < 255) × (1 + get_or part.old 0 0 * width + width ≤ length part.old) }
    ensures { part.new ≡ pushed width part.old item.now }
{
    let b = part[0];
    codec::put_bytes(part, 1 + usize::from(b) * width, item);
    part[0] = b + 1;
}

// The first k are taken off, and zeros follow.
fn drop_front(d: &mut [u8], k: usize)
    requires { k ≤ length d.old }
    ensures { d.new ≡ drop k d.old ++ blank k }
{
    let n = d.len();
    d.copy_within(k..n, 0);
    codec::put_zeros(d, n - k, k);
}

// Takes the first item off; only the places in use are moved.
pub fn pop(part: &mut [u8], width: usize)
    requires { (0 < get_or part.old 0 0) × (1 + get_or part.old 0 0 * width ≤ length part.old) }
    ensures { part.new ≡ popped width part.old }
{
    let b = part[0];
    drop_front(&mut part[1..1 + usize::from(b) * width], width);
    part[0] = b - 1;
}
