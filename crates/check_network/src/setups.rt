// Setup from a header block that the line has.
use check_vectors::Line;
use header::Header;
use refusals::Refusal;
use std::array;

// The block of the line's header, with one byte raised by a number.
fn block(s: Line) -> [u8; 512] {
    let mut b = [0u8; 512];
    let h = Header {
        n: s.byte(3),
        t: s.half(4),
        allowances: s.halves(7),
    };
    let limits = array::from_fn(|i| s.bytes(15 + i % 8 * 8));
    let _ = header::write(h, limits, &mut b);
    check_vectors::lift(&mut b, s.size(5), s.byte(6));
    b
}

// Setup from the first bytes of the block into the first bytes of the area: how many of each, n, t, the byte that is raised and by how much,
// and the allowances and limits.
pub fn lent(area: &mut [u8; 65536], s: Line) -> Result<(), Refusal> {
    let length = s.size(2);
    if area.len() < length {
        return Ok(());
    }
    let b = block(s);
    setup::setup(&b[..s.up_to(1, 512)], &mut area[..length])
}
