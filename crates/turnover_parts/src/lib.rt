// A run of turnover over an input that comes in parts: as many lines as a lent buffer has room for the answers of, and the end of the input.
#![tactic(auto)]

ghost use Rattle.std.specs.Prelude.{◌≡◌, List, [], ℕ, ◌+◌, ◌≤◌, length};
ghost use Rattle.turnover_output.specs.Answer.{longest};
ghost use Rattle.turnover_output.specs.TextAt.{TextAt};
ghost use Rattle.turnover_input.specs.Kept.{Holds};
ghost use Rattle.turnover_commands.specs.Run.{standing_of};
ghost use Rattle.turnover_session.specs.Turnover.{turnover_from, Takes, AllThatFits};

use turnover_output::answer::LONGEST;
use turnover_session::Session;

// Takes bytes line by line, until they are used up or the buffer may not have room for another answer. Answers the bytes that are left, and the
// place behind what was printed.
pub fn take_lines<'a, const AREA: usize>(
    session: &mut Session<AREA>,
    bytes: &'a [u8],
    out: &mut [u8],
    at: usize,
) -> (&'a [u8], usize)
    requires { at ≤ length out.old }
    ensures takes { Takes session.old bytes.now out.old at result.0.now result.1 session.new out.new }
    ensures all_that_fits { AllThatFits bytes.now at out.old result.0.now result.1 }
{
    let mut rest = bytes;
    let mut end = at;
    'lines: while !rest.is_empty() {
        if out.len() - end < LONGEST {
            break;
        }
        (rest, end) = session.take(rest, out, end);
    }
    (rest, end)
}

// The input has ended: the last line, where it has no line feed, and setup where no step came.
pub fn finish<const AREA: usize>(session: &mut Session<AREA>, out: &mut [u8], at: usize) -> usize
    requires { at + (longest + longest) ≤ length out.old }
    ensures by_index { (t : List ℕ) → Holds session.old.line t → TextAt out.old at (turnover_from (standing_of session.old.state) t []) result out.new }
    ensures upper_bound { result ≤ at + (longest + longest) }
    ensures line_stays { session.new.line ≡ session.old.line }
{
    if session.line.is_empty() {
        return session.state.close(out, at);
    }
    let command = session.line.command();
    let end = session.state.obey(out, at, command);
    session.state.close(out, end)
}
