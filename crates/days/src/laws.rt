// What is true of every step of a machine. Nothing runs here: the contracts are the theorems.
ghost use Rattle.store.specs.Memories.{state_of};
ghost use Rattle.days.specs.Promise.{Promised};
ghost use Rattle.days.specs.Files.{WholeDays, WholeDaysAreSteps};
ghost use Rattle.days.specs.Within.{AreSteps};
ghost use Rattle.store.specs.Asking.{IsExact};
ghost use Rattle.store.specs.State.{State};

use crate::source::Source;
use store::{Memory, Store};

// Over an exact store each step is some steps of the system, or none: so many at most.
pub fn steps_are_in_the_system<S: Store>()
    ensures { AreSteps S.does }
{}

// What each step has done over an exact store, and that a refusal by a number changes nothing, but that a refused file may have listed names.
pub fn steps_keep_the_promise<S: Store>()
    ensures { Promised S.does }
{}

// Over an exact store a whole day that is made is what its source gave, and no day is named where it is refused. Either way it is made by steps of the system.
pub fn whole_days_are_made<S: Store, F: Source>()
    ensures made { (holds : S → State) → IsExact holds S.does → WholeDays S.does F.gives holds }
    ensures steps { (holds : S → State) → IsExact holds S.does → WholeDaysAreSteps S.does F.gives holds }
{}

// The store in memory is exact.
pub fn memory_is_exact()
    ensures { IsExact state_of ⟦<Memory as Store>⟧.does }
{}
