// The functions on 32-bit words that SHA-256 is made of. The numbers of bits by which a mixture rotates and shifts are its parameters.
ghost use Rattle.std.specs.Prelude.{◌≡◌, ◌<◌};
ghost use Rattle.digest.specs.Sha256.{Ch, Maj, ROTR, SHR, ◌⊕◌};

// Of each bit, y's where x has 1, and z's where x has 0.
pub fn ch(x: u32, y: u32, z: u32) -> u32
    ensures { result ≡ Ch x y z }
{
    (x & y) ^ (!x & z)
}

// Of each bit, what two or three of x, y and z have.
pub fn maj(x: u32, y: u32, z: u32) -> u32
    ensures { result ≡ Maj x y z }
{
    (x & y) ^ (x & z) ^ (y & z)
}

// Σ0 is big_sigma::<2, 13, 22>, and Σ1 is big_sigma::<6, 11, 25>.
pub fn big_sigma<const A: u32, const B: u32, const C: u32>(x: u32) -> u32
    requires first { (0 < A) × (A < 32) }
    requires second { (0 < B) × (B < 32) }
    requires third { (0 < C) × (C < 32) }
    ensures { result ≡ ROTR A x ⊕ ROTR B x ⊕ ROTR C x }
{
    x.rotate_right(A) ^ x.rotate_right(B) ^ x.rotate_right(C)
}

// σ0 is small_sigma::<7, 18, 3>, and σ1 is small_sigma::<17, 19, 10>.
pub fn small_sigma<const A: u32, const B: u32, const C: u32>(x: u32) -> u32
    requires first { (0 < A) × (A < 32) }
    requires second { (0 < B) × (B < 32) }
    requires third { C < 32 }
    ensures { result ≡ ROTR A x ⊕ ROTR B x ⊕ SHR C x }
{
    x.rotate_right(A) ^ x.rotate_right(B) ^ (x >> C)
}
