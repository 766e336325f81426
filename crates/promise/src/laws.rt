// The promise, over every mixture of steps of any machines and the sweeper. Nothing runs here: the contracts are the theorems.
ghost use Rattle.promise.specs.Promise.{AllCanGo, AllIsRight, AsideIsMoved, DaysAreMade, DaysAreOfForm, DaysAreWhole, DaysLast, DaysStay, HalfFullHasRoom, NothingIsLost, NumbersAreUsedOnce, NumbersRise, SeenIsThere, SweepsAreWhole, SweepsSpare};

// Whatever happens, no day loses a piece, no day changes, only what nobody has goes away, and all of that can go, again and again.
pub fn every_mixture_keeps_the_promise()
    ensures days { DaysAreWhole }
    ensures form { DaysAreOfForm }
    ensures seen { SeenIsThere }
    ensures lost { NothingIsLost }
    ensures right { AllIsRight }
    ensures stay { DaysStay }
    ensures once { NumbersAreUsedOnce }
    ensures rise { NumbersRise }
    ensures made { DaysAreMade }
    ensures last { DaysLast }
    ensures spares { SweepsSpare }
    ensures moves { AsideIsMoved }
    ensures half_full { HalfFullHasRoom }
    ensures can_go { AllCanGo }
    ensures swept { SweepsAreWhole }
{}
