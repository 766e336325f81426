// A list of names: 32 bytes each, one after the other.
ghost use Rattle.std.specs.Prelude.{◌≡◌, ◌%◌, IfOk};
ghost use Rattle.layout.specs.Lists.{listed_in};

use digest::Digest;
use std::alloc::{AllocError, Global};

// How many bytes at the end of a list of this length are a part of a name.
pub fn torn(length: u64) -> u64
    ensures { result ≡ length % 32 }
{
    length % 32
}

// The names in a list, in their order. A part of a name at the end is left out.
pub fn names_in(heap: Global, bytes: &[u8]) -> Result<Vec<Digest>, AllocError>
    ensures { IfOk result (λ v. v.items ≡ listed_in bytes.now) }
{
    let (names, _) = bytes.as_chunks::<32>();
    names.iter().map(|name| Digest::from(*name)).collect(heap)
}
