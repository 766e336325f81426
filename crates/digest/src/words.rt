// Eight 32-bit words: a hash value H0 to H7, or the working variables a to h of one block.
ghost use Rattle.std.specs.Prelude.{◌≡◌};
ghost use Rattle.digest.specs.Sha256.{added, joined_words, round};

use crate::functions::{big_sigma, ch, maj};
use crate::value::Digest;
use std::ops::Add;

#[derive(Clone, Copy)]
pub struct Words {
    pub a: u32,
    pub b: u32,
    pub c: u32,
    pub d: u32,
    pub e: u32,
    pub f: u32,
    pub g: u32,
    pub h: u32,
}

impl Words {
    // One of the 64 rounds, with its constant k and its word w of the schedule.
    #[tactic(auto, unfolding(crate::specs::Sha256::round, crate::specs::Sha256::T1, crate::specs::Sha256::T2))]
    pub fn round(self, k: u32, w: u32) -> Words
        ensures { result ≡ round self k w }
    {
        let t1 = self
            .h
            .wrapping_add(big_sigma::<6, 11, 25>(self.e))
            .wrapping_add(ch(self.e, self.f, self.g))
            .wrapping_add(k)
            .wrapping_add(w);
        let t2 = big_sigma::<2, 13, 22>(self.a).wrapping_add(maj(self.a, self.b, self.c));
        Words {
            a: t1.wrapping_add(t2),
            b: self.a,
            c: self.b,
            d: self.c,
            e: self.d.wrapping_add(t1),
            f: self.e,
            g: self.f,
            h: self.g,
        }
    }
}

// The sums, word by word.
impl Add for Words {
    type Output = Words;

    ghost add_gives = { λ v u sum. sum ≡ added v u };

    fn add(self, other: Words) -> Words {
        Words {
            a: self.a.wrapping_add(other.a),
            b: self.b.wrapping_add(other.b),
            c: self.c.wrapping_add(other.c),
            d: self.d.wrapping_add(other.d),
            e: self.e.wrapping_add(other.e),
            f: self.f.wrapping_add(other.f),
            g: self.g.wrapping_add(other.g),
            h: self.h.wrapping_add(other.h),
        }
    }
}

// The words' bytes, the highest of each first.
impl From<Words> for Digest {
    ghost from_gives = { λ words digest. digest ≡ record { bytes = joined_words words } };

    fn from(v: Words) -> Digest {
        let words = [v.a, v.b, v.c, v.d, v.e, v.f, v.g, v.h];
        let quads = words.map(u32::to_be_bytes);
        Digest::from(*quads.as_flattened().as_array::<32>().unwrap())
    }
}
