// Where a piece may lie, and how long it may be.
ghost use Rattle.std.specs.Prelude.{◌≡◌, ◌<◌, ◌≤◌, MatchResult};
ghost use Rattle.store.specs.State.{most_in_piece};
ghost use Rattle.cutting.specs.declared.refusal.Refusal.TheVariants.{PieceTooLong};

use cutting::Refusal;

#[derive(Clone, Copy, Debug, PartialEq, Eq)]
pub enum Spot {
    Place,
    Aside,
}

// No piece has more bytes.
const MOST_IN_PIECE: u64 = 65_536;

// May a piece have so many bytes?
pub fn check_piece(length: u64) -> Result<(), Refusal>
    ensures { MatchResult result (λ _. length ≤ most_in_piece) (λ r. (most_in_piece < length) × (r ≡ PieceTooLong)) }
{
    if length > MOST_IN_PIECE {
        return Err(Refusal::PieceTooLong);
    }
    Ok(())
}
