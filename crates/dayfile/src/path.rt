// A path: from 1 to 255 bytes.
ghost use Rattle.std.specs.Prelude.{◌≡◌, ◌≢◌};
ghost use Rattle.cutting.specs.declared.refusal.Refusal.TheVariants.{BadPath, NoMemory};
ghost use Rattle.dayfile.specs.Limits.{IsPath, IsPath-prop};

use cutting::Refusal;
use std::alloc::Global;

// A path has at most so many bytes.
const MOST_IN_PATH: usize = 255;

#[derive(Drop)]
pub struct Path {
    pub(crate) bytes: Vec<u8>,
    pub ghost fits: { IsPath bytes.items } by { IsPath-prop bytes.items },
}

impl Path {
    ghost use Rattle.std.specs.Prelude.{MatchResult};
    ghost use Rattle.dayfile.specs.Paths.{IsNoPath};

    // The path of these bytes.
    pub fn new(heap: Global, bytes: &[u8]) -> Result<Path, Refusal>
        ensures { MatchResult result (λ p. p.bytes.items ≡ bytes.now) (IsNoPath bytes.now) }
    {
        if bytes.is_empty() || bytes.len() > MOST_IN_PATH {
            return Err(Refusal::BadPath);
        }
        Ok(Path {
            bytes: Vec::from_slice(heap, bytes)?,
        })
    }

    pub fn as_bytes(&self) -> &[u8]
        ensures { result.now ≡ self.now.bytes.items }
    {
        &self.bytes
    }
}
