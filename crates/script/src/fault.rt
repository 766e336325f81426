// Why a line is no step, in the words of its answer.
ghost use Rattle.std.specs.Prelude.{◌≡◌, Some};
ghost use Rattle.script.specs.declared.fault.Fault.TheVariants.{NoMemory};
ghost use Rattle.script.specs.Faults.{fault_text};

use std::alloc::{AllocError, AllocFailed};
use std::fmt;

#[derive(Debug, PartialEq, Eq, Drop)]
pub enum Fault {
    // the line is longer than a line may be
    TooLong,
    // there was no memory for the line, the bytes that it spells or the words of its fault
    NoMemory,
    // no step has this name
    UnknownStep(String),
    // not the words of this step, whose line is to be written so
    WrongWords(&'static str),
    // none of the forms of bytes
    WrongForm,
    // this is not a hexadecimal digit, at this place
    NoHexDigit(String, usize),
    // so many hexadecimal digits, an odd number
    OddDigits(usize),
    // this is not a byte of two hexadecimal digits
    NoByte(String),
    // this is not a number, or larger than this
    NoNumber(String, u64),
}

// Two impls, since one for every error that turns into an AllocError would overlap with std's from a type to itself.
impl From<AllocError> for Fault {
    ghost from_gives = { λ _ r. r ≡ NoMemory };

    fn from(_e: AllocError) -> Fault {
        Fault::NoMemory
    }
}

impl<T: Drop> From<AllocFailed<T>> for Fault {
    ghost from_gives = { λ _ r. r ≡ NoMemory };

    fn from(_e: AllocFailed<T>) -> Fault {
        Fault::NoMemory
    }
}

impl fmt::Display for Fault {
    ghost output = { λ f. Some (fault_text f) };

    fn fmt<W: fmt::Write>(&self, f: &mut fmt::Formatter<W>) -> fmt::Result {
        match self {
            Fault::TooLong => write!(f, "longer than 67108864 bytes"),
            Fault::NoMemory => write!(f, "there is not enough memory"),
            Fault::UnknownStep(word) => write!(f, "no step is called {word}"),
            Fault::WrongWords(line) => write!(f, "write the line as '{line}'"),
            Fault::WrongForm => write!(
                f,
                "write bytes as HEX, as 'repeat BYTE COUNT' or as 'random SEED COUNT'"
            ),
            Fault::NoHexDigit(word, place) => {
                write!(f, "{word} is not a hexadecimal digit, at place {place}")
            }
            Fault::OddDigits(count) => write!(f, "an odd number of hexadecimal digits, {count}"),
            Fault::NoByte(word) => write!(f, "{word} is not a byte of two hexadecimal digits"),
            Fault::NoNumber(word, most) => write!(f, "{word} is not a number from 0 to {most}"),
        }
    }
}
