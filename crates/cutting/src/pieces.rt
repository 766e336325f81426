// The pieces of a file, as parts of it.
ghost use Rattle.std.specs.Prelude.{◌≡◌, ◌<◌, ◌≤◌, [], ◌∷◌, length, MatchOption, MatchResult};
ghost use Rattle.cutting.specs.Rule.{most_in_file, pieces};
ghost use Rattle.cutting.specs.Results.{Cut, TooLong};
ghost use Rattle.std.specs.Iterator.{at_most};

use crate::ending::piece_length;
use crate::refusal::Refusal;
use std::alloc::Global;

// A file has at most so many bytes.
const MOST_IN_FILE: u64 = 16_777_216;

// May a file have so many bytes? To be asked before a file is read. What refuses by the limit says so in its own contract, here and in `Pieces::new` and `cut`.
pub fn check_length(length: u64) -> Result<(), Refusal>
    ensures { MatchResult result (λ _. length ≤ most_in_file) (TooLong length) }
{
    if length > MOST_IN_FILE {
        return Err(Refusal::FileTooLong);
    }
    Ok(())
}

// The pieces of a file, in their order, each a part of the file itself.
#[derive(Drop)]
pub struct Pieces<'a> {
    // what follows the pieces so far
    rest: &'a [u8],
    // no part of a file is longer than a file may be
    pub ghost short: { length rest.now ≤ most_in_file },
}

impl<'a> Pieces<'a> {
    pub fn new(file: &'a [u8]) -> Result<Pieces<'a>, Refusal>
        ensures { MatchResult result (λ p. p.rest.now ≡ file.now) (TooLong (length file.now)) }
    {
        check_length(file.len() as u64)?;
        Ok(Pieces { rest: file })
    }
}

// The pieces from any point on are those that the rule gives for what is left, as for a file of its own.
impl<'a> Iterator for Pieces<'a> {
    type Item = &'a [u8];

    ghost next_gives = { λ s r t. MatchOption r ((s.rest.now ≡ []) × (t.rest.now ≡ [])) (λ p. pieces s.rest.now ≡ p.now ∷ pieces t.rest.now) };

    ghost remaining = { λ s. at_most (length s.rest.now) };

    fn next(&mut self) -> Option<&'a [u8]> {
        if self.rest.is_empty() {
            return None;
        }
        let (piece, rest) = self.rest.split_at(piece_length(self.rest));
        self.rest = rest;
        Some(piece)
    }
}

// All pieces of a file. Nothing of it is copied.
#[tactic(auto, using(crate::proofs::Collected::one_more, crate::proofs::Collected::has_bytes, crate::proofs::Collected::no_memory))]
pub fn cut<'a>(heap: Global, file: &'a [u8]) -> Result<Vec<&'a [u8]>, Refusal>
    ensures { Cut file.now result }
{
    // a `for`, since the contract of `collect` does not say that it fails only where there are items: here, that a file without bytes is always cut
    let mut found = Vec::new(heap);
    for piece in Pieces::new(file)? {
        found.push(piece)?;
    }
    Ok(found)
}
