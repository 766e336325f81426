// What is true of every step of the sweeper. Nothing runs here: the contracts are the theorems.
ghost use Rattle.sweeper.specs.Promise.{Promised};
ghost use Rattle.sweeper.specs.Within.{AreSteps};

use store::Store;

// Over an exact store each step is a step of the system, or two, or none.
pub fn steps_are_in_the_system<S: Store>()
    ensures { AreSteps S.does }
{}

// What each step has done over an exact store, and why it is refused; a refusal by a number changes nothing.
pub fn steps_keep_the_promise<S: Store>()
    ensures { Promised S.does }
{}
