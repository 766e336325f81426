// Why a list of machines is refused.
ghost use Rattle.std.specs.Prelude.{◌≡◌, Some};
ghost use Rattle.layout.specs.declared.fault.MachinesFault.TheVariants.{NoMemory};
ghost use Rattle.layout.specs.Texts.{fault_text, line_text};

use std::alloc::{AllocError, AllocFailed};
use std::fmt;

// What is wrong with a line.
#[derive(Clone, Copy, Debug, PartialEq, Eq)]
pub enum LineFault {
    // it does not begin with the number of a machine
    NotANumber,
    // its machine stands on the list already
    Twice(u8),
    // it stands behind the last line, and is neither blank nor a comment
    BehindEnd,
}

#[derive(Clone, Copy, Debug, PartialEq, Eq)]
pub enum MachinesFault {
    // there is no last line, `end`
    NoEnd,
    // the first line with a fault, by its number from 1 on
    Line(usize, LineFault),
    NoMemory,
}

impl From<AllocError> for MachinesFault {
    ghost from_gives = { λ _ r. r ≡ NoMemory };

    fn from(_e: AllocError) -> MachinesFault {
        MachinesFault::NoMemory
    }
}

impl<T: Drop> From<AllocFailed<T>> for MachinesFault {
    ghost from_gives = { λ _ r. r ≡ NoMemory };

    fn from(_e: AllocFailed<T>) -> MachinesFault {
        MachinesFault::NoMemory
    }
}

impl fmt::Display for LineFault {
    ghost output = { λ f. Some (line_text f) };

    fn fmt<W: fmt::Write>(&self, f: &mut fmt::Formatter<W>) -> fmt::Result {
        match self {
            LineFault::NotANumber => write!(
                f,
                "it does not begin with the number of a machine, from 0 to 63"
            ),
            LineFault::Twice(machine) => write!(f, "machine {machine} stands there twice"),
            LineFault::BehindEnd => write!(f, "something stands behind `end`"),
        }
    }
}

impl fmt::Display for MachinesFault {
    ghost output = { λ f. Some (fault_text f) };

    fn fmt<W: fmt::Write>(&self, f: &mut fmt::Formatter<W>) -> fmt::Result {
        match self {
            MachinesFault::NoEnd => write!(f, "it has no last line `end`, so it was cut"),
            MachinesFault::Line(number, fault) => write!(f, "line {number}: {fault}"),
            MachinesFault::NoMemory => write!(f, "there is not enough memory"),
        }
    }
}
