// Lines of any length in 32 bytes: no command's text is as long, so that a line's first 32 bytes say what the line says.
ghost use Rattle.std.specs.Prelude.{◌≡◌, true, List, [], ◌∷◌, ◌++◌, ℕ, ◌↔◌};
ghost use Rattle.turnover_input.specs.Text.{Means};
ghost use Rattle.turnover_input.specs.Parse.{parse_of};
ghost use Rattle.turnover_input.specs.Kept.{Holds, Fills};

use crate::command::Command;
use crate::line::Line;

// How many bytes of a line are kept.
pub const LINE_SIZE: usize = 32;

impl Line {
    // A line of which nothing has come.
    pub fn new() -> Line
        ensures { Holds result [] }
    {
        Line {
            bytes: [0; 32],
            have: 0,
        }
    }

    // Whether nothing has come.
    pub fn is_empty(&self) -> bool
        ensures { (t : List ℕ) → Holds self.now t → (result ≡ true) ↔ (t ≡ []) }
    {
        self.have == 0
    }

    // One more byte.
    fn keep(&mut self, b: u8)
        ensures { (t : List ℕ) → Holds self.old t → Holds self.new (t ++ (b ∷ [])) }
    {
        if self.have < LINE_SIZE {
            self.bytes[self.have] = b;
            self.have += 1;
        }
    }

    // More of the line: the bytes up to the first line feed, or all where there is none. Answers the bytes behind a line feed.
    pub fn fill<'a>(&mut self, bytes: &'a [u8]) -> Option<&'a [u8]>
        ensures { Fills self.old bytes.now result self.new }
    {
        for (i, b) in bytes.iter().enumerate() {
            if *b == b'\n' {
                return Some(&bytes[i + 1..]);
            }
            self.keep(*b);
        }
        None
    }

    // The command of a whole line.
    pub fn command(&self) -> Option<Command>
        ensures { (t : List ℕ) → Holds self.now t → (result ≡ parse_of t) × Means t result }
    {
        crate::command::parse(&self.bytes[..self.have])
    }
}
