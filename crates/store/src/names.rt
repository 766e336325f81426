// When two names are the same.
ghost use Rattle.std.specs.Prelude.{◌≡◌, Decides};
ghost use Rattle.digest.specs.declared.value.Digest.{Digest};
ghost use Rattle.store.specs.declared.day.DayName.{DayName};
ghost use Rattle.store.specs.declared.listing.Listing.{Listing};
ghost use Rattle.store.specs.State.{same_name, same_day, same_listing};

// Names of pieces, names of days and entries of lists are the same exactly if they are equal. Nothing runs here: the contract is the theorem.
pub fn same_is_equality()
    ensures name { (x y : Digest) → Decides (same_name x y) (x ≡ y) }
    ensures day { (x y : DayName) → Decides (same_day x y) (x ≡ y) }
    ensures listing { (x y : Listing) → Decides (same_listing x y) (x ≡ y) }
{}
