// A digest: 32 bytes, compared as bytes are.
ghost use Rattle.std.specs.Prelude.{◌≡◌, Some, Decides};
ghost use Rattle.std.specs.Cmp.{partial_order_from_own_ties};
ghost use Rattle.std.specs.Cmp.Lexicographic.{slice_cmp};
ghost use Rattle.std.specs.Cmp.Rules.{comparing};
ghost use Rattle.std.specs.Ordering.{as_partial_cmp, nat_cmp, on};
ghost use Rattle.std.proofs.Common.{rules};
ghost use Rattle.digest.specs.Order.{order, TotalOrder, LibraryOrder, LibraryEquality};

use std::cmp::Ordering;

// The order is written out, since a derived one has no contract of its own, and callers are told of `order` by the contracts of `cmp` and `partial_cmp`.
#[derive(Clone, Copy, Debug, PartialEq, Eq, Hash)]
pub struct Digest {
    pub(crate) bytes: [u8; 32],
}

impl Digest {
    pub fn as_bytes(&self) -> &[u8; 32]
        ensures { result.now ≡ self.now.bytes }
    {
        &self.bytes
    }
}

impl From<[u8; 32]> for Digest {
    ghost from_gives = { λ bytes digest. digest.bytes ≡ bytes };

    fn from(bytes: [u8; 32]) -> Digest {
        Digest { bytes }
    }
}

impl PartialOrd for Digest {
    ghost partial_cmp = { as_partial_cmp (on (λ d. d.bytes) (slice_cmp nat_cmp)) };

    ghost laws = { partial_order_from_own_ties (Prim.search (comparing, rules)) (Prim.search (comparing, rules)) };

    fn partial_cmp(&self, other: &Digest) -> Option<Ordering>
        ensures answer { result ≡ Some (slice_cmp nat_cmp self.now.bytes other.now.bytes) }
        ensures order { result ≡ Some (order self.now.bytes other.now.bytes) }
    {
        Some(self.cmp(other))
    }
}

impl Ord for Digest {
    ghost cmp = { on (λ d. d.bytes) (slice_cmp nat_cmp) };

    ghost total = { Prim.search (comparing, rules) };

    ghost matches_partial_cmp = { Prim.search (comparing, rules) };

    ghost matches_eq = { Prim.search (comparing, rules) };

    fn cmp(&self, other: &Digest) -> Ordering
        ensures answer { result ≡ slice_cmp nat_cmp self.now.bytes other.now.bytes }
        ensures order { result ≡ order self.now.bytes other.now.bytes }
    {
        self.bytes.cmp(&other.bytes)
    }
}

// What generic code is told of the comparisons: == decides equality, the order is that of the bytes, and it is total. Nothing runs here: the contract is the theorem.
pub fn order_is_total()
    ensures total { TotalOrder }
    ensures decides { (x y : Digest) → Decides (⟦<Digest as PartialEq>⟧.eq x y) (x ≡ y) }
    ensures order { (x y : Digest) → ⟦<Digest as Ord>⟧.cmp x y ≡ order x.bytes y.bytes }
    ensures partial_order { (x y : Digest) → ⟦<Digest as PartialOrd>⟧.partial_cmp x y ≡ Some (order x.bytes y.bytes) }
    ensures library_order { LibraryOrder }
    ensures library_equality { LibraryEquality }
{}
