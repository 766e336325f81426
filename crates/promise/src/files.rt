// Days give back their files, over every mixture of steps. Nothing runs here: the contract is the theorem.
ghost use Rattle.store.specs.Asking.{IsExact};
ghost use Rattle.store.specs.State.{State};
ghost use Rattle.promise.specs.Back.{ListedFilesComeBack, MadeDaysComeBack};

use days::Source;
use store::Store;

// Whatever happens after a day is named, each of its files comes back to the last byte as long as the day is kept, or two different strings with one SHA-256 are at hand.
pub fn days_come_back<S: Store, F: Source>()
    ensures listed { (holds : S → State) → IsExact holds S.does → ListedFilesComeBack S.does holds }
    ensures made { (holds : S → State) → IsExact holds S.does → MadeDaysComeBack S.does F.gives holds }
{}
