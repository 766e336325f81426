// The hash value after a block of 64 bytes, and after several.
ghost use Rattle.std.specs.Prelude.{◌≡◌, fold};
ghost use Rattle.digest.specs.Sha256.{compressed};

use crate::constants::K;
use crate::schedule::Schedule;
use crate::words::Words;

// The hash value after a block. Four rounds a turn, since one a turn was measured to be slower by a seventh (docs/DECISIONS.md has the figures).
#[tactic(auto, unfolding(crate::specs::Sha256::rounds, crate::specs::Sha256::compressed))]
pub fn compress(before: Words, block: &[u8; 64]) -> Words
    ensures { result ≡ compressed before block.now }
{
    let mut schedule = Schedule::new(block);
    let mut words = before;
    for k in K.as_chunks::<4>().0 {
        words = words.round(k[0], schedule.next_word());
        words = words.round(k[1], schedule.next_word());
        words = words.round(k[2], schedule.next_word());
        words = words.round(k[3], schedule.next_word());
    }
    before + words
}

// The hash value after blocks, one after the other.
pub fn compress_all(before: Words, blocks: &[[u8; 64]]) -> Words
    ensures { result ≡ fold compressed before blocks.now }
{
    blocks.iter().fold(before, compress)
}
