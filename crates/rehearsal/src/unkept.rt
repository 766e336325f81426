// Why a line is not kept while it is read.
ghost use Rattle.std.specs.Prelude.{◌≡◌};
ghost use Rattle.rehearsal.specs.declared.unkept.Unkept.TheVariants.{NoMemory};
ghost use Rattle.rehearsal.specs.Unkepts.{fault_of};

use script::Fault;
use std::alloc::AllocError;

// No `Fault`, since of all faults only these two can come.
#[derive(Clone, Copy)]
pub enum Unkept {
    TooLong,
    NoMemory,
}

impl From<AllocError> for Unkept {
    ghost from_gives = { λ _ r. r ≡ NoMemory };

    fn from(_e: AllocError) -> Unkept {
        Unkept::NoMemory
    }
}

impl From<Unkept> for Fault {
    ghost from_gives = { λ u r. r ≡ fault_of u };

    fn from(unkept: Unkept) -> Fault {
        match unkept {
            Unkept::TooLong => Fault::TooLong,
            Unkept::NoMemory => Fault::NoMemory,
        }
    }
}
