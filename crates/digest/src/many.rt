// Several slices in one call: parts of one message, or a message each.
ghost use Rattle.std.specs.Prelude.{◌≡◌, IfOk};
ghost use Rattle.digest.specs.Digests.{digest_of, digest_of_each, joined};

use crate::hasher::{Hasher, sha256};
use crate::value::Digest;
use std::alloc::{AllocError, Global};

// SHA-256 of one message that lies in several slices, one after the other; they are not joined in memory.
pub fn sha256_parts(parts: &[&[u8]]) -> Digest
    ensures { result ≡ digest_of (joined parts.now) }
{
    let mut hasher = Hasher::new();
    for part in parts {
        hasher.update(*part);
    }
    hasher.finish()
}

// SHA-256 of each of several messages, in their order. One call for many of them leaves room to hash several at a time.
pub fn sha256_each(heap: Global, messages: &[&[u8]]) -> Result<Vec<Digest>, AllocError>
    ensures { IfOk result (λ v. v.items ≡ digest_of_each messages.now) }
{
    messages
        .iter()
        .map(|message| sha256(*message))
        .collect(heap)
}
