// A line of which 32 bytes are kept.
ghost use Rattle.std.specs.Prelude.{◌≤◌};

// A line as far as it has come: its first bytes, and how many of them are kept.
#[derive(Clone, Copy)]
pub struct Line {
    pub bytes: [u8; 32],
    pub have: usize,
    ghost fits: { have ≤ 32 },
}
