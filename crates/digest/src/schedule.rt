// The message schedule of a block, one word after the other.
ghost use Rattle.std.specs.Prelude.{◌≡◌, ◌+◌, ◌<◌, slice_index, take};
ghost use Rattle.digest.specs.Sha256.{Wt, schedule, word};

use crate::functions::small_sigma;

// The working variables are no field of it: with them the speed fell below 0.9 of plain Rust's (docs/DECISIONS.md has the figures).
#[derive(Drop)]
pub struct Schedule<'a> {
    // The words so far are the first `filled` of these. An array with a length beside it, and the length not next to the array: an `ArrayVec` of so many words, and
    // a length next to them, the compiler clears by memset, which a program in C that links this would have to bring.
    words: [u32; 64],
    block: &'a [u8; 64],
    filled: usize,
    ghost in_order: { take filled words ≡ schedule filled block.now },
}

// Word i of a block, from its four bytes, the highest first.
fn word_at(block: &[u8; 64], i: usize) -> u32
    requires { i < 16 }
    ensures { result ≡ word i block.now }
{
    u32::from_be_bytes(block.as_chunks::<4>().0[i])
}

impl<'a> Schedule<'a> {
    #[tactic(auto, unfolding(crate::specs::Sha256::schedule))]
    pub fn new(block: &'a [u8; 64]) -> Schedule<'a>
        ensures block { result.block.now ≡ block.now }
        ensures none { result.filled ≡ 0 }
    {
        Schedule {
            words: [0; 64],
            block,
            filled: 0,
        }
    }

    // The word after those that there are: one of the block's, and from the sixteenth on one that four before it give.
    #[tactic(auto, using(std::proofs::lemmas::Bool::Decides::nat_tests), unfolding(crate::specs::Sha256::Wt))]
    fn after(&self) -> u32
        requires { self.now.filled < 64 }
        ensures { result ≡ Wt self.now.filled self.now.block.now self.now.words }
    {
        let t = self.filled;
        if t < 16 {
            return word_at(self.block, t);
        }
        small_sigma::<17, 19, 10>(self.words[t - 2])
            .wrapping_add(self.words[t - 7])
            .wrapping_add(small_sigma::<7, 18, 3>(self.words[t - 15]))
            .wrapping_add(self.words[t - 16])
    }

    // The next word, which is kept for the words after it.
    #[tactic(auto, using(crate::proofs::Filling::filled_more, crate::proofs::Filling::filled_word))]
    pub fn next_word(&mut self) -> u32
        requires { self.old.filled < 64 }
        ensures word { result ≡ slice_index (schedule 64 self.old.block.now) self.old.filled }
        ensures filled { self.new.filled ≡ self.old.filled + 1 }
        ensures block { self.new.block.now ≡ self.old.block.now }
    {
        let word = self.after();
        self.words[self.filled] = word;
        self.filled += 1;
        word
    }
}
