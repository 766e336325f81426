// The pieces of a file, as an answer lists them.
ghost use Rattle.std.specs.Prelude.{Some};
ghost use Rattle.rehearsal.specs.Listings.{Lists, listed_text};

use cutting::{Refusal, cut};
use digest::{Digest, sha256};
use std::alloc::Global;
use std::fmt;

// A piece by its length and its digest.
#[derive(Clone, Copy)]
pub struct Listed {
    length: usize,
    name: Digest,
}

impl fmt::Display for Listed {
    ghost output = { λ p. Some (listed_text p) };

    fn fmt<W: fmt::Write>(&self, f: &mut fmt::Formatter<W>) -> fmt::Result {
        write!(f, "{} {}", self.length, self.name)
    }
}

// Cuts a file and lists its pieces.
pub fn list_pieces(heap: Global, file: &[u8]) -> Result<Vec<Listed>, Refusal>
    ensures { Lists file.now result }
{
    let found = cut(heap, file)?;
    let mut list = Vec::new(heap);
    // No `collect`, which does not promise that a list of no pieces needs no memory.
    for piece in &found {
        list.push(Listed {
            length: piece.len(),
            name: sha256(*piece),
        })?;
    }
    Ok(list)
}
