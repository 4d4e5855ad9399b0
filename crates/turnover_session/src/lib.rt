// A run of turnover, a line of the input at a time: its answer is printed into a lent buffer.
#![tactic(auto)]

ghost use Rattle.std.specs.Prelude.{◌+◌, ◌≤◌, length};
ghost use Rattle.turnover_output.specs.Answer.{longest};
ghost use Rattle.turnover_session.specs.Turnover.{Takes, OneLine, Begins};

use turnover_commands::state::State;
use turnover_input::line::Line;

// The line that the input goes on with, and the run.
#[derive(Drop)]
pub struct Session<const AREA: usize> {
    pub line: Line,
    pub state: State<AREA>,
}

impl Session<65536> {
    // Before the first byte.
    pub fn new() -> Session<65536>
        ensures { Begins result }
    {
        Session {
            line: Line::new(),
            state: State::new(),
        }
    }
}

impl<const AREA: usize> Session<AREA> {
    // Takes the bytes up to the first line feed, or all where there is none, and obeys the line that ends there. Answers the bytes that are left, and
    // the place behind what was printed.
    pub fn take<'a>(&mut self, bytes: &'a [u8], out: &mut [u8], at: usize) -> (&'a [u8], usize)
        requires { at + longest ≤ length out.old }
        ensures takes { Takes self.old bytes.now out.old at result.0.now result.1 self.new out.new }
        ensures one_line { OneLine bytes.now result.0.now at result.1 }
    {
        let Some(rest) = self.line.fill(bytes) else {
            return (&[], at);
        };
        let command = self.line.command();
        self.line = Line::new();
        let end = self.state.obey(out, at, command);
        (rest, end)
    }
}
