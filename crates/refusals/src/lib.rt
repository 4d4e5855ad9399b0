// Why a call is refused, and the number that stands for each cause outside the code; 9 is none.
#![tactic(auto)]

ghost use Rattle.std.specs.Prelude.{◌≡◌};
ghost use Rattle.refusals.specs.Numbers.{number_of, told as told_of};

use std::error::Error;
use std::fmt;

#[derive(Clone, Copy, Debug, PartialEq, Eq)]
pub enum Refusal {
    // A block, record or archive of a wrong length, check, field or spare byte.
    Malformed,

    // A state area of another length, or no image of a well-formed state; or one that no initial network reaches, where a step would leave an item,
    // count or phase beyond its bound.
    IllFormedState,

    // A well-made header breaks a network rule.
    NetworkRule,

    // No such station, or no such neighbour.
    NoSuchStation,

    // The mode forbids the send or start.
    ModeForbids,

    // The allowance or the link's limit is used up in this phase.
    UsedUp,

    // Nothing to receive on the link.
    EmptyLink,

    // A start in the last phase.
    NoMorePhases,

    // Records of different phases.
    DifferentPhases,

    // A buffer too small, or not of its one length.
    BufferLength,

    // No such record in the block or archive; a block of 0 or over 15 records.
    NoSuchRecord,

    // In some phase of the archive the own counts of a station are not 1, 2, 3 .., each once.
    IllKept,

    // A sheet of over 128 numbers.
    SheetTooLong,
}

// The number that stands for a refusal.
impl From<Refusal> for u8 {
    ghost from_gives = { λ refusal n. n ≡ number_of refusal };

    fn from(refusal: Refusal) -> u8 {
        match refusal {
            Refusal::Malformed => 1,
            Refusal::IllFormedState => 2,
            Refusal::NetworkRule => 3,
            Refusal::NoSuchStation => 4,
            Refusal::ModeForbids => 5,
            Refusal::UsedUp => 6,
            Refusal::EmptyLink => 7,
            Refusal::NoMorePhases => 8,
            Refusal::DifferentPhases => 10,
            Refusal::BufferLength => 11,
            Refusal::NoSuchRecord => 12,
            Refusal::IllKept => 13,
            Refusal::SheetTooLong => 14,
        }
    }
}

impl fmt::Display for Refusal {
    fn fmt<W: fmt::Write>(&self, f: &mut fmt::Formatter<W>) -> fmt::Result {
        let cause = match self {
            Refusal::Malformed => "malformed block, record or archive",
            Refusal::IllFormedState => "no well-formed state",
            Refusal::NetworkRule => "a network rule is broken",
            Refusal::NoSuchStation => "no such station or neighbour",
            Refusal::ModeForbids => "the mode forbids it",
            Refusal::UsedUp => "allowance or limit used up",
            Refusal::EmptyLink => "nothing to receive",
            Refusal::NoMorePhases => "no more phases",
            Refusal::DifferentPhases => "records of different phases",
            Refusal::BufferLength => "wrong length of a buffer",
            Refusal::NoSuchRecord => "no such record",
            Refusal::IllKept => "own counts are not 1, 2, 3 .., each once",
            Refusal::SheetTooLong => "over 128 numbers",
        };
        write!(f, "{cause}")
    }
}

impl Error for Refusal {}

// 0 for a call that was done, or the number of its refusal.
pub fn told(answer: Result<(), Refusal>) -> u8
    ensures { result ≡ told_of answer }
{
    match answer {
        Ok(()) => 0,
        Err(refusal) => u8::from(refusal),
    }
}
