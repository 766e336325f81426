// Worked cases: what the machines and the sweeper do to one piece, step by step. Nothing runs here: the contract is the theorem.
ghost use Rattle.promise.specs.Cases.{Cases};

pub fn worked_cases()
    ensures cases { Cases }
{}
