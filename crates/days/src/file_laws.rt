// What is true of files that are had back. Nothing runs here: the contracts are the theorems.
ghost use Rattle.store.specs.Asking.{IsExact};
ghost use Rattle.store.specs.State.{State};
ghost use Rattle.days.specs.Files.{BacksAreListed, FilesComeBack};

use store::Store;

// Whatever a store answers, however damaged it is, a file that is had back has pieces of just the names that the day lists, and the length that it lists.
pub fn back_gives_what_is_listed<S: Store>()
    ensures { BacksAreListed S.does }
{}

// Over an exact store in which all its pieces lie, a file of a day is had back to the last byte, or two different strings with one SHA-256 are at hand.
pub fn files_come_back<S: Store>()
    ensures { (holds : S → State) → IsExact holds S.does → FilesComeBack S.does holds }
{}
