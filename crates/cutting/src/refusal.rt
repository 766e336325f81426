// Why a call is refused, with the number by which it is known.
ghost use Rattle.std.specs.Prelude.{◌≡◌, Some};
ghost use Rattle.cutting.specs.declared.refusal.Refusal.TheVariants.{NoMemory};
ghost use Rattle.cutting.specs.Refusals.{number_of, rank, lowest, words, refusal_text};

use std::alloc::{AllocError, AllocFailed};
use std::{cmp, fmt};

#[derive(Clone, Copy, Debug, PartialEq, Eq)]
pub enum Refusal {
    // 1: limits, and names that there are not
    FileTooLong,
    PieceTooLong,
    PieceEmpty,
    BadPath,
    PathNotAbove,
    TooManyFiles,
    Unknown,
    // 2: a day that is damaged or incomplete, or has the name that another is to have
    BadDay,
    DayIsThere,
    // 3: a machine that makes a day where it must make none, or the other way round; or that has raised its number already, or not yet
    MakesDay,
    MakesNone,
    HasNumber,
    HasNoNumber,
    // 4: the sweeper does something else, or waits for a machine
    NotAtThatPoint,
    Unfinished,
    // 5: the lists of names are full
    TooManyNames,
    // 6: a day number that is too large
    LastNumber,
    // without a number: no rule was broken
    NoMemory,
    ReadOrWrite,
}

impl Refusal {
    // The number by which it is known, if it has one.
    pub fn number(self) -> Option<u8>
        ensures { result ≡ number_of self }
    {
        match self {
            Refusal::FileTooLong
            | Refusal::PieceTooLong
            | Refusal::PieceEmpty
            | Refusal::BadPath
            | Refusal::PathNotAbove
            | Refusal::TooManyFiles
            | Refusal::Unknown => Some(1),
            Refusal::BadDay | Refusal::DayIsThere => Some(2),
            Refusal::MakesDay | Refusal::MakesNone | Refusal::HasNumber | Refusal::HasNoNumber =>
                Some(3),
            Refusal::NotAtThatPoint | Refusal::Unfinished => Some(4),
            Refusal::TooManyNames => Some(5),
            Refusal::LastNumber => Some(6),
            Refusal::NoMemory | Refusal::ReadOrWrite => None,
        }
    }

    // Its place among others: that of its number, or else after all numbers.
    fn rank(self) -> u8
        ensures { result ≡ rank self }
    {
        self.number().unwrap_or(7)
    }

    // Which of two is given where both fit: the lowest number wins.
    pub fn lowest(self, other: Refusal) -> Refusal
        ensures { result ≡ lowest self other }
    {
        cmp::min_by_key(self, other, |refusal| refusal.rank())
    }

    // What it says.
    fn words(self) -> &'static str
        ensures { result.now ≡ words self }
    {
        match self {
            Refusal::FileTooLong => "a file has at most 16777216 bytes",
            Refusal::PieceTooLong => "a piece has at most 65536 bytes",
            Refusal::PieceEmpty => "a piece has at least one byte",
            Refusal::BadPath => "a path has from 1 to 255 bytes",
            Refusal::PathNotAbove => "a path must be above the one before it",
            Refusal::TooManyFiles => "a day has at most 4096 files",
            Refusal::Unknown => "there is no such machine, day or path",
            Refusal::BadDay => "a day is damaged or incomplete",
            Refusal::DayIsThere => "there is a day of that number already",
            Refusal::MakesDay => "the machine already makes a day",
            Refusal::MakesNone => "the machine makes no day",
            Refusal::HasNumber => {
                "the day has its number already, and is to be named or broken off"
            }
            Refusal::HasNoNumber => "the day has no number yet, which is to be raised first",
            Refusal::NotAtThatPoint => "the sweeper is not at that point",
            Refusal::Unfinished => "a machine has finished no day since",
            Refusal::TooManyNames => "the lists have at most 262144 names",
            Refusal::LastNumber => "a day number is at most 4294967295",
            Refusal::NoMemory => "there is not enough memory",
            Refusal::ReadOrWrite => "a read or a write failed",
        }
    }
}

// Two impls, since one for every error that turns into an AllocError would overlap with std's from a type to itself.
impl From<AllocError> for Refusal {
    ghost from_gives = { λ _ r. r ≡ NoMemory };

    fn from(_e: AllocError) -> Refusal {
        Refusal::NoMemory
    }
}

impl<T: Drop> From<AllocFailed<T>> for Refusal {
    ghost from_gives = { λ _ r. r ≡ NoMemory };

    fn from(_e: AllocFailed<T>) -> Refusal {
        Refusal::NoMemory
    }
}

impl fmt::Display for Refusal {
    ghost output = { λ r. Some (refusal_text r) };

    fn fmt<W: fmt::Write>(&self, f: &mut fmt::Formatter<W>) -> fmt::Result {
        let words = self.words();
        match self.number() {
            Some(number) => write!(f, "refused by {number}: {words}"),
            None => write!(f, "{words}"),
        }
    }
}
