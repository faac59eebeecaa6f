// Why a call is refused: document 01's table of answers, with 02's 15, 16 and 19 (columnar/merge/mod.rs, where an assert or an error stands for each).
#![tactic(auto)]

ghost use Rattle.std.specs.Prelude.{◌≡◌};
ghost use Rattle.refusal.specs.Number.{number_of};

use std::error::Error;
use std::fmt;

/// The checks in their order, 19 between 3 and 4: the first that fails is the refusal.
#[derive(Clone, Copy, Debug, PartialEq, Eq, Hash)]
pub enum Refusal {
    TooManySegments,
    Lengths,
    UnknownCode,
    OldMultivalued,
    RowLists,
    Contents,
    AliveSet,
    TooLarge,
    WorkingSpace,
    Addresses,
    Types,
    OutputSpace,
    Times,
    AbsentRow,
    NoAliveSet,
}

impl From<Refusal> for u32 {
    ghost from_gives = { λ refusal n. n ≡ number_of refusal };

    fn from(refusal: Refusal) -> u32 {
        match refusal {
            Refusal::TooManySegments => 1,
            Refusal::Lengths => 2,
            Refusal::UnknownCode => 3,
            Refusal::OldMultivalued => 19,
            Refusal::RowLists => 4,
            Refusal::Contents => 5,
            Refusal::AliveSet => 6,
            Refusal::TooLarge => 7,
            Refusal::WorkingSpace => 8,
            Refusal::Addresses => 9,
            Refusal::Types => 10,
            Refusal::OutputSpace => 11,
            Refusal::Times => 12,
            Refusal::AbsentRow => 15,
            Refusal::NoAliveSet => 16,
        }
    }
}

impl fmt::Display for Refusal {
    fn fmt<W: fmt::Write>(&self, f: &mut fmt::Formatter<W>) -> fmt::Result {
        f.write_str(match self {
            Refusal::TooManySegments => "too many segments",
            Refusal::Lengths => "lengths",
            Refusal::UnknownCode => "unknown code",
            Refusal::OldMultivalued => "old multivalued",
            Refusal::RowLists => "row lists",
            Refusal::Contents => "values or terms",
            Refusal::AliveSet => "alive set",
            Refusal::TooLarge => "too large",
            Refusal::WorkingSpace => "working space",
            Refusal::Addresses => "addresses",
            Refusal::Types => "types",
            Refusal::OutputSpace => "output space",
            Refusal::Times => "times",
            Refusal::AbsentRow => "absent row",
            Refusal::NoAliveSet => "no alive set",
        })
    }
}

impl Error for Refusal {}
