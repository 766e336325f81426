// SHA-256 of a message that comes in parts, and of one that is there whole.
ghost use Rattle.std.specs.Prelude.{◌≡◌, ℕ, List, [], ◌++◌};
ghost use Rattle.digest.specs.Digests.{digest_of};
ghost use Rattle.digest.specs.Hasher.{Absorbed};

use crate::compress::{compress, compress_all};
use crate::constants::INITIAL_VALUE;
use crate::value::Digest;
use crate::words::Words;
use arrayvec::ArrayVec;

// The message is no function of what is held, so a relation, `Absorbed`, says which message a hasher was given.
#[derive(Drop)]
pub struct Hasher {
    // the hash value after the whole blocks so far
    value: Words,
    // the bytes after those, within the value itself, since a caller in C has no allocator to give
    rest: ArrayVec<u8, 64>,
    // how many bytes there were, modulo 2 to the 64
    length: u64,
}

impl Hasher {
    #[tactic(auto, unfolding(crate::specs::Sha256::initial, crate::specs::Sha256::hashed))]
    pub fn new() -> Hasher
        ensures { Absorbed result [] }
    {
        Hasher {
            value: INITIAL_VALUE,
            rest: ArrayVec::new(),
            length: 0,
        }
    }

    // Takes in the next bytes of the message.
    pub fn update(&mut self, more: &[u8])
        ensures { (m : List ℕ) → Absorbed self.old m → Absorbed self.new (m ++ more.now) }
    {
        self.length = self.length.wrapping_add(more.len() as u64);
        let Some((first, after)) = more.split_at_checked(self.rest.remaining_capacity()) else {
            self.rest.try_extend_from_slice(more).unwrap();
            return;
        };
        let (whole, end) = after.as_chunks::<64>();
        self.rest.try_extend_from_slice(first).unwrap();
        self.value = compress_all(self.value, self.rest.as_chunks::<64>().0);
        self.value = compress_all(self.value, whole);
        // In place, and not by `try_into`: for its copy a program in C that links this would have to bring memcpy.
        self.rest = ArrayVec::new();
        self.rest.try_extend_from_slice(end).unwrap();
    }

    // The digest of all that was taken in. The padding is taken in as the message was: the byte 0x80, bytes 0, and the message's length in bits.
    pub fn finish(mut self) -> Digest
        ensures { (m : List ℕ) → Absorbed self m → result ≡ digest_of m }
    {
        let bits = self.length.wrapping_mul(8);
        let zeros = (119 - self.rest.len()) % 64;
        self.update(&[0x80]);
        self.update(&[0; 64][..zeros]);
        self.update(&bits.to_be_bytes());
        Digest::from(self.value)
    }
}

// SHA-256 of a message.
pub fn sha256(message: &[u8]) -> Digest
    ensures { result ≡ digest_of message.now }
{
    let mut hasher = Hasher::new();
    hasher.update(message);
    hasher.finish()
}
