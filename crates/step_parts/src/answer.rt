// Answers of steps that are not refused.
ghost use Rattle.std.specs.Prelude.{◌≡◌};
ghost use Rattle.record.specs.Record.{kind_byte};

use record::{Kind, Record};
use station::{Mode, Station};

// The peer of an own entry, and the news of entries that are no receipts.
pub const NO_PEER: u8 = 255;

pub const NO_NEWS: u8 = 0;

// An accepted entry: its record, and the news of a receipt and else 0; or the mode and phase after.
#[derive(Clone, Copy, Debug, PartialEq, Eq)]
pub enum Accepted {
    Entry { event: Record, news: u8 },
    InMode { mode: Mode, phase: u32 },
}

impl Accepted {
    // An entry, whose station's record is x after the step.
    pub fn entry(kind: Kind, station: u8, peer: u8, register: u32, x: Station, news: u8) -> Accepted
        ensures { result ≡ Accepted.Entry (record { kind = kind_byte kind; station = station; peer = peer; phase = x.phase; register = register; counts = x.counts }) news }
    {
        let counts = x.counts;
        let event = Record {
            kind: u8::from(kind),
            station,
            peer,
            phase: x.phase,
            register,
            counts,
        };
        Accepted::Entry { event, news }
    }

    pub fn in_mode(x: Station) -> Accepted
        ensures { result ≡ Accepted.InMode x.mode x.phase }
    {
        Accepted::InMode {
            mode: x.mode,
            phase: x.phase,
        }
    }
}
