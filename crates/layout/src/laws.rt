// That names which are added to a list are read from it, behind those that were there.
ghost use Rattle.std.specs.Prelude.{◌≡◌, ℕ, List, ◌++◌, length};
ghost use Rattle.std.specs.List.{AllByRecursion};
ghost use Rattle.digest.specs.declared.value.Digest.{Digest};
ghost use Rattle.layout.specs.Lists.{joined, listed_in, whole_names};

// A torn end is taken off, and the names follow. Nothing runs here: the contract is the theorem.
#[tactic(auto, using(crate::proofs::Added::added_names_are_listed))]
pub fn added_names_are_listed()
    ensures { (bytes : List ℕ) (names : List Digest) → AllByRecursion (λ n. length n.bytes ≡ 32) names → listed_in (whole_names bytes ++ joined names) ≡ listed_in bytes ++ names }
{}
