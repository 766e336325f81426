// Bytes with their digest behind them.
ghost use Rattle.std.specs.Prelude.{◌≡◌, MatchOption};
ghost use Rattle.layout.specs.Signed.{signed};

use digest::sha256;

// What stands before the digest of it. None where no bytes stand before their digest.
pub(crate) fn before_digest(bytes: &[u8]) -> Option<&[u8]>
    ensures { MatchOption result ((b : _) → bytes.now ≡ signed b → ⊥) (λ b. bytes.now ≡ signed b.now) }
{
    let (body, end) = bytes.split_last_chunk::<32>()?;
    if sha256(body).as_bytes() != end {
        return None;
    }
    Some(body)
}
