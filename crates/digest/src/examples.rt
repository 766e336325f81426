// What shows that the definitions, which every contract here cites, are the standard's.
ghost use Rattle.digest.specs.Examples.{Examples, Padding};

// Nothing runs here: the contract is the theorem.
pub fn worked_examples()
    ensures examples { Examples }
    ensures padding { Padding }
{}
