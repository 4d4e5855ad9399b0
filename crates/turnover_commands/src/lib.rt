// A run of turnover, command by command: the settings before setup, the steps after it, and the line that each command prints.
#![tactic(auto)]

ghost use Rattle.std.specs.Prelude.{◌≡◌, true, List, ℕ, ◌+◌, ◌≤◌, length};
ghost use Rattle.codec.specs.Every.{blank};
ghost use Rattle.turnover_output.specs.Answer.{longest};
ghost use Rattle.turnover_output.specs.TextAt.{TextAt};
ghost use Rattle.area.specs.Layout.{test};
ghost use Rattle.refusals.specs.Numbers.{told};
ghost use Rattle.area_calls.specs.Calls.{AreaStep};
ghost use Rattle.step_parts.specs.Answers.{stepped_of, step_view};
ghost use Rattle.turnover_settings.specs.declared.Stage.TheVariants.{Setting, Stepping, Ended};
ghost use Rattle.turnover_settings.specs.Settings.{opened_run, staged_run, settings_block, set_up as settings_set_up};
ghost use Rattle.turnover_commands.specs.Run.{standing, standing_of, code_text, step_made, stepping as Steps, first as First, opening as Opens, setting as Sets, obeyed, closed, is_ended, Replies};

pub mod state;

use crate::state::State;
use record::Kind;
use refusals::Refusal;
use step_parts::answer::Accepted;
use turnover_input::command::Command;
use turnover_output::answer;
use turnover_settings::{Run, Stage};

// The line of a step's answer.
fn print(
    out: &mut [u8],
    at: usize,
    number: u64,
    station: u8,
    n: u8,
    answered: Result<Accepted, Refusal>,
) -> usize
    requires { at + longest ≤ length out.old }
    ensures text_at { TextAt out.old at (code_text number station n (step_view answered).event (step_view answered).answer) result out.new }
    ensures upper_bound { result ≤ at + longest }
{
    match answered {
        Err(refusal) => answer::refused(out, at, number, u8::from(refusal)),
        Ok(Accepted::Entry { event, news }) => {
            let phase = event.phase;
            let counts = event.counts;
            if event.kind == u8::from(Kind::Received) {
                return answer::receipt(out, at, number, phase, station, counts, n, news);
            }
            answer::entry(out, at, number, phase, station, counts, n)
        }
        Ok(Accepted::InMode { mode, phase }) => {
            answer::mode(out, at, number, phase, station, u8::from(mode))
        }
    }
}

// A step was made. A run whose step numbers are used up ends: none gets there.
fn made(
    run: &mut Run,
    out: &mut [u8],
    at: usize,
    station: u8,
    answered: Result<Accepted, Refusal>,
) -> usize
    requires { at + longest ≤ length out.old }
    ensures { (b a : List ℕ) (o : AreaStep) → step_view answered ≡ stepped_of o.answer → a ≡ o.area → Replies (step_made run.old b station o) out.old at result (standing run.new b a) out.new }
{
    if run.number == u64::MAX {
        *run = run.staged(Stage::Ended);
        return at;
    }
    let number = run.number + 1;
    *run = run.numbered(number);
    print(out, at, number, station, run.n, answered)
}

// A command after setup, over the area as a slice, of which a proof knows that its bytes are bytes.
fn stepping(run: &mut Run, area: &mut [u8], out: &mut [u8], at: usize, command: Command) -> usize
    requires { (at + longest ≤ length out.old) × (test area.old ≡ true) }
    ensures by_index { (b : List ℕ) → Replies (Steps (standing run.old b area.old) command) out.old at result (standing run.new b area.new) out.new }
    ensures area_after { test area.new ≡ true }
{
    match command {
        Command::Enter { station, register } => {
            let answered = enter_send::enter(area, u32::from(station), register);
            made(run, out, at, station, answered)
        }
        Command::Send {
            station,
            peer,
            register,
        } => {
            let answered = enter_send::send(area, u32::from(station), u32::from(peer), register);
            made(run, out, at, station, answered)
        }
        Command::Recv { station, peer } => {
            let answered = recv_start::recv(area, u32::from(station), u32::from(peer));
            made(run, out, at, station, answered)
        }
        Command::Start { station } => {
            let answered = recv_start::start(area, u32::from(station));
            made(run, out, at, station, answered)
        }
        _ => answer::bad(out, at),
    }
}

// Setup, over the block and the area as slices: a refused one ends the run.
fn set_up(run: &mut Run, block: &mut [u8], area: &mut [u8]) -> Result<(), Refusal>
    requires { length block.old ≡ 512 }
    ensures value { told result ≡ (settings_set_up block.old area.old run.old).answer }
    ensures block_after { block.new ≡ (settings_block block.old run.old).buffer }
    ensures area_after { area.new ≡ (settings_set_up block.old area.old run.old).buffer }
    ensures done { told result ≡ 0 → (run.new ≡ staged_run run.old Stepping) × (test area.new ≡ true) }
    ensures refused { (told result ≡ 0 → ⊥) → run.new ≡ staged_run run.old Ended }
{
    let done = turnover_settings::set_up(block, area, *run);
    let stage = match done {
        Ok(()) => Stage::Stepping,
        Err(_) => Stage::Ended,
    };
    *run = run.staged(stage);
    done
}

impl State<65536> {
    // A run before its first line.
    pub fn new() -> State<65536>
        ensures { standing_of result ≡ standing opened_run (blank 512) (blank 65536) }
    {
        State {
            run: Run::opened(),
            block: turnover_settings::block(),
            area: turnover_settings::area(),
        }
    }
}

impl<const AREA: usize> State<AREA> {
    // No later line is read.
    pub fn ended(&self) -> bool
        ensures { result ≡ is_ended self.now.run.stage }
    {
        self.run.stage == Stage::Ended
    }

    // `net` comes first.
    fn opening(&mut self, out: &mut [u8], at: usize, command: Command) -> usize
        requires { at + longest ≤ length out.old }
        ensures { Replies (Opens (standing_of self.old) command) out.old at result (standing_of self.new) out.new }
    {
        let Command::Net { n, t } = command else {
            return answer::bad(out, at);
        };
        self.run = Run::named(n, t);
        at
    }

    // The first step sets up.
    fn first(&mut self, out: &mut [u8], at: usize, command: Command) -> usize
        requires { at + longest ≤ length out.old }
        ensures { Replies (First (standing_of self.old) command) out.old at result (standing_of self.new) out.new }
    {
        match set_up(&mut self.run, &mut self.block, &mut self.area) {
            Ok(()) => stepping(&mut self.run, &mut self.area, out, at, command),
            Err(refusal) => answer::setup_refused(out, at, u8::from(refusal)),
        }
    }

    // A command between `net` and setup.
    fn setting(&mut self, out: &mut [u8], at: usize, command: Command) -> usize
        requires { (at + longest ≤ length out.old) × (self.old.run.stage ≡ Setting) }
        ensures { Replies (Sets (standing_of self.old) command) out.old at result (standing_of self.new) out.new }
    {
        match command {
            Command::Net { n: _, t: _ } => answer::bad(out, at),
            Command::Allow { station, allowance } => {
                self.run = self.run.allowing(station, allowance);
                at
            }
            Command::Link { from, to, limit } => {
                turnover_settings::link(&mut self.block, from, to, limit);
                at
            }
            _ => self.first(out, at, command),
        }
    }

    // One command, or a line that says none: at most one line is printed at `at`.
    pub fn obey(&mut self, out: &mut [u8], at: usize, command: Option<Command>) -> usize
        requires { at + longest ≤ length out.old }
        ensures { Replies (obeyed (standing_of self.old) command) out.old at result (standing_of self.new) out.new }
    {
        if self.ended() {
            return at;
        }
        let Some(command) = command else {
            return answer::bad(out, at);
        };
        match self.run.stage {
            Stage::Opening => self.opening(out, at, command),
            Stage::Setting => self.setting(out, at, command),
            Stage::Stepping => stepping(&mut self.run, &mut self.area, out, at, command),
            Stage::Ended => at,
        }
    }

    // The end of input: a run that has met `net` and no step sets up now.
    pub fn close(&mut self, out: &mut [u8], at: usize) -> usize
        requires { at + longest ≤ length out.old }
        ensures { Replies (closed (standing_of self.old)) out.old at result (standing_of self.new) out.new }
    {
        if self.run.stage != Stage::Setting {
            return at;
        }
        match set_up(&mut self.run, &mut self.block, &mut self.area) {
            Ok(()) => at,
            Err(refusal) => answer::setup_refused(out, at, u8::from(refusal)),
        }
    }
}
