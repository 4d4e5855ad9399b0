// The state of a run.
ghost use Rattle.std.specs.Prelude.{◌≡◌, true};
ghost use Rattle.area.specs.Layout.{test};
ghost use Rattle.turnover_settings.specs.declared.Stage.TheVariants.{Stepping};

use turnover_settings::Run;

// A run: its stage and settings, the header block in the making, where the limits stand, and the state area. After setup the area is the image of
// a well-formed state. An area of any length is taken, as the calls on one take it: setup refuses all but one.
#[derive(Drop)]
pub struct State<const AREA: usize> {
    pub run: Run,
    pub block: [u8; 512],
    pub area: [u8; AREA],
    ghost ready: { run.stage ≡ Stepping → test area ≡ true },
}
