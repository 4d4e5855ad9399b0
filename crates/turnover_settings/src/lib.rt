// The settings of a run of turnover before setup, and setup by them.
#![tactic(auto)]

ghost use Rattle.std.specs.Prelude.{◌≡◌, length};
ghost use Rattle.codec.specs.Every.{blank};
ghost use Rattle.refusals.specs.Numbers.{told};
ghost use Rattle.turnover_settings.specs.Settings.{opened_run, named_run, staged_run, numbered_run, allowed_run, allowance_set, limit_set, link_set, settings_of, settings_block, set_up};

use header::Header;
use refusals::Refusal;

// Where a run stands: before `net`, before setup, after setup, and where nothing more is read.
#[derive(Clone, Copy, Debug, PartialEq, Eq)]
pub enum Stage {
    Opening,
    Setting,
    Stepping,
    Ended,
}

// The state of a run: its stage, the settings so far but for the limits, and the number of the last step. The limits stand beside it, where
// a header block has them, in 512 bytes.
#[derive(Clone, Copy)]
pub struct Run {
    pub stage: Stage,
    pub n: u8,
    pub t: u16,
    pub allowances: [u16; 8],
    pub number: u64,
}

impl Run {
    // A run before its first line.
    pub fn opened() -> Run
        ensures { result ≡ opened_run }
    {
        Run {
            stage: Stage::Opening,
            n: 0,
            t: 0,
            allowances: [0; 8],
            number: 0,
        }
    }

    // A run after `net`.
    pub fn named(n: u8, t: u16) -> Run
        ensures { result ≡ named_run n t }
    {
        Run {
            stage: Stage::Setting,
            n,
            t,
            allowances: [0; 8],
            number: 0,
        }
    }

    // After an `allow` line.
    pub fn allowing(self, station: u8, allowance: u16) -> Run
        ensures { result ≡ allowed_run self station allowance }
    {
        let mut run = self;
        if station < 8 {
            run.allowances[usize::from(station)] = allowance;
        }
        run
    }

    // In another stage.
    pub fn staged(self, stage: Stage) -> Run
        ensures { result ≡ staged_run self stage }
    {
        Run { stage, ..self }
    }

    // Its last step has this number.
    pub fn numbered(self, number: u64) -> Run
        ensures { result ≡ numbered_run self number }
    {
        Run { number, ..self }
    }

    // The settings but for the limits.
    fn settings(self) -> Header
        ensures { result ≡ settings_of self }
    {
        let allowances = self.allowances;
        Header {
            n: self.n,
            t: self.t,
            allowances,
        }
    }
}

// The header block and the area of a run before its first line.
pub fn block() -> [u8; 512]
    ensures { (length result ≡ 512) × (result ≡ blank 512) }
{
    [0; 512]
}

pub fn area() -> [u8; 65536]
    ensures { (65536 ≡ length result) × (result ≡ blank 65536) }
{
    [0u8; 65536]
}

// One limit of the table.
fn limit(block: &mut [u8], from: u8, to: u8, limit: u8)
    requires { length block.old ≡ 512 }
    ensures { block.new ≡ limit_set block.old from to limit }
{
    if (from < 8) & (to < 8) {
        block[32 + 8 * usize::from(from) + usize::from(to)] = limit;
    }
}

// The limits after a `link` line, which sets both ways.
pub fn link(block: &mut [u8], from: u8, to: u8, l: u8)
    requires { length block.old ≡ 512 }
    ensures { block.new ≡ link_set block.old from to l }
{
    limit(block, from, to, l);
    limit(block, to, from, l);
}

// Setup by the settings, as the header block that they make.
pub fn set_up(block: &mut [u8], area: &mut [u8], run: Run) -> Result<(), Refusal>
    requires { length block.old ≡ 512 }
    ensures value { told result ≡ (set_up block.old area.old run).answer }
    ensures block_after { block.new ≡ (settings_block block.old run).buffer }
    ensures area_after { area.new ≡ (set_up block.old area.old run).buffer }
{
    let limits = header::load_limits(block);
    header::write(run.settings(), limits, block)?;
    setup::setup(block, area)
}
