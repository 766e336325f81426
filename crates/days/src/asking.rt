// What the steps of machines ask of a store.
ghost use Rattle.std.specs.Prelude.{◌∷◌, [], MatchResult};
ghost use Rattle.days.specs.Asking.{Asked, NotOnList, Finds, on_list};

use cutting::Refusal;
use digest::Digest;
use store::{Spot, Store};

// Is the machine on the list of machines?
pub(crate) fn check_machine<S: Store>(store: &mut S, machine: u8) -> Result<(), Refusal>
    ensures { MatchResult result (λ _. Asked S.does store.old (on_list machine ∷ []) store.new) (λ r. NotOnList S.does machine store.old r store.new) }
{
    if !store.has_machine(machine)? {
        return Err(Refusal::Unknown);
    }
    Ok(())
}

// Do the very bytes of a piece lie in its place?
pub(crate) fn has_piece<S: Store>(
    store: &mut S,
    name: Digest,
    piece: &[u8],
) -> Result<bool, Refusal>
    ensures { Finds S.does name piece.now store.old result store.new }
{
    Ok(
        store
            .read(Spot::Place, name)?
            .is_some_and(|bytes| bytes.as_slice() == piece),
    )
}
