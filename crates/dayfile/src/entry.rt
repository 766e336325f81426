// A file of a day.
ghost use Rattle.std.specs.Prelude.{◌≡◌, length};
ghost use Rattle.std.specs.List.{AllByRecursion};

use crate::path::Path;
use cutting::{Refusal, check_length};
use digest::Digest;

// A file has at most so many pieces.
const MOST_PIECES: usize = 65_535;

#[derive(Drop)]
pub struct FileEntry {
    pub path: Path,
    pub length: u32,
    pub pieces: Vec<Digest>,
}

impl FileEntry {
    ghost use Rattle.std.specs.Prelude.{MatchResult};
    ghost use Rattle.cutting.specs.declared.refusal.Refusal.TheVariants.{FileTooLong};
    ghost use Rattle.dayfile.specs.Adding.{IsLong};
    ghost use Rattle.dayfile.specs.Files.{entry_of};
    ghost use Rattle.dayfile.specs.Limits.{IsEntry};

    // Is it within its limits, and without pieces if it has no bytes?
    pub(crate) fn check(&self) -> Result<(), Refusal>
        ensures { MatchResult result (λ _. IsEntry (entry_of self.now)) (λ r. IsLong (entry_of self.now) × (r ≡ FileTooLong)) }
    {
        check_length(self.length as u64)?;
        if self.pieces.len() > MOST_PIECES || (self.length == 0 && !self.pieces.is_empty()) {
            return Err(Refusal::FileTooLong);
        }
        show_names(&self.pieces);
        Ok(())
    }
}

// Each name has 32 bytes, as its type says. Nothing is done but to prove it.
fn show_names(names: &[Digest])
    ensures { AllByRecursion (λ n. length n.bytes ≡ 32) names.now }
{
    for name in names {
        let bytes: &[u8] = name.as_bytes();
        prove!(bytes.len() == 32);
    }
}
