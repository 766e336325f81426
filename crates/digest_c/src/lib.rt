// The digest for programs in C or Rust, which link this crate as a static library.
#![tactic(auto)]

ghost use Rattle.std.specs.Prelude.{◌≡◌, length, MatchBool, ◌==◌};
ghost use Rattle.digest.specs.Sha256.{sha256};

// Writes the 32 bytes of the message's digest into out and answers true. An out of another length is refused: false, and out stays as it was.
// A bool and not a Result, which C does not have.
// In C: bool zeltuva_sha256(const uint8_t *message, size_t message_length, uint8_t *out, size_t out_length). Nothing holds a caller there to what a
// caller here owes by its types: both point to so many bytes, which do not overlap.
#[unsafe(no_mangle)]
pub extern "C" fn zeltuva_sha256(message: &[u8], out: &mut [u8]) -> bool
    ensures fits { result ≡ (length out.old == 32) }
    ensures after { MatchBool result (out.new ≡ sha256 message.now) (out.new ≡ out.old) }
{
    if out.len() != 32 {
        return false;
    }
    out.copy_from_slice(digest::sha256(message).as_bytes());
    true
}
