// Why a line is not played, in the words of its answer.
ghost use Rattle.std.specs.Prelude.{◌≡◌, Some};
ghost use Rattle.rehearsal.specs.declared.unplayed.Unplayed.TheVariants as unplayed;
ghost use Rattle.rehearsal.specs.Texts.{unplayed_text};

use cutting::Refusal;
use script::Fault;
use std::fmt;

#[derive(Drop)]
pub enum Unplayed {
    // it is no step, or is not kept
    Fault(Fault),
    // it is one, and what it asks is refused
    Refusal(Refusal),
}

impl From<Fault> for Unplayed {
    ghost from_gives = { λ f r. r ≡ unplayed.Fault f };

    fn from(fault: Fault) -> Unplayed {
        Unplayed::Fault(fault)
    }
}

impl From<Refusal> for Unplayed {
    ghost from_gives = { λ f r. r ≡ unplayed.Refusal f };

    fn from(refusal: Refusal) -> Unplayed {
        Unplayed::Refusal(refusal)
    }
}

impl fmt::Display for Unplayed {
    ghost output = { λ u. Some (unplayed_text u) };

    fn fmt<W: fmt::Write>(&self, f: &mut fmt::Formatter<W>) -> fmt::Result {
        match self {
            Unplayed::Fault(fault) => write!(f, "{fault}"),
            Unplayed::Refusal(refusal) => write!(f, "{refusal}"),
        }
    }
}
