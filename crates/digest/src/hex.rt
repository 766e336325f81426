// A digest written as 64 lowercase hexadecimal digits, and read back from them.
ghost use Rattle.std.specs.Prelude.{◌≡◌, ◌%◌, ◌<◌, Some, IsAscii, MatchResult, ◌≢◌, [], ◌∷◌};
ghost use Rattle.digest.specs.Hex.{digit, hex, Reads};

use crate::value::Digest;
use std::fmt;
use std::str::{FromStr, from_utf8};

// A text that is not the 64 digits of a digest.
#[derive(Clone, Copy, Debug, PartialEq, Eq)]
pub struct NotADigest;

// The digit, in ASCII, of the lowest four bits of a number. By hand, since char::from_digit answers an Option of a char, to be unwrapped and cast.
pub fn hex_digit(n: u8) -> u8
    ensures value { result ≡ digit (n % 16) }
    ensures ascii { result < 128 }
{
    let low = n % 16;
    if low < 10 {
        b'0' + low
    } else {
        b'a' - 10 + low
    }
}

// The number whose digit c is, or a refusal. By hand, since char::to_digit takes capitals too.
fn value_of(c: u8) -> Result<u8, NotADigest>
    ensures { MatchResult result (λ n. (n < 16) × (c ≡ digit n)) (λ _. (n : _) → n < 16 → c ≢ digit n) }
{
    match c {
        b'0'..=b'9' => Ok(c - b'0'),
        b'a'..=b'f' => Ok(c - b'a' + 10),
        _ => Err(NotADigest),
    }
}

// The two digits of a byte, in ASCII, which each of these functions says for itself, since an array carries no invariant.
fn pair_of(byte: u8) -> [u8; 2]
    ensures value { result ≡ hex (byte ∷ []) }
    ensures ascii { IsAscii result }
{
    [hex_digit(byte / 16), hex_digit(byte)]
}

// The byte whose two digits a pair is, or a refusal.
fn byte_of(pair: [u8; 2]) -> Result<u8, NotADigest>
    ensures { MatchResult result (λ byte. (byte < 256) × (pair ≡ hex (byte ∷ []))) (λ _. (byte : _) → byte < 256 → pair ≢ hex (byte ∷ [])) }
{
    let [high, low] = pair;
    Ok(value_of(high)? * 16 + value_of(low)?)
}

impl Digest {
    // The 64 digits, in ASCII.
    pub fn digits(&self) -> [u8; 64]
        ensures value { result ≡ hex self.now.bytes }
        ensures ascii { IsAscii result }
    {
        // a loop, since with `map` this took some ten times as long
        let mut pairs = [[b'0'; 2]; 32];
        for (i, byte) in self.bytes.iter().enumerate() {
            pairs[i] = pair_of(*byte);
        }
        *pairs.as_flattened().as_array::<64>().unwrap()
    }

    // The digest whose digits a text is, or a refusal.
    pub fn read(text: &[u8]) -> Result<Digest, NotADigest>
        ensures { Reads text.now result }
    {
        let (pairs, []) = text.as_chunks::<2>() else {
            return Err(NotADigest);
        };
        let pairs = pairs.as_array::<32>().ok_or(NotADigest)?;
        // a loop, since with `try_map` this took three times as long
        let mut bytes = [0; 32];
        for (i, pair) in pairs.iter().enumerate() {
            bytes[i] = byte_of(*pair)?;
        }
        Ok(Digest { bytes })
    }
}

impl fmt::Display for Digest {
    ghost output = { λ d. Some (hex d.bytes) };

    fn fmt<W: fmt::Write>(&self, f: &mut fmt::Formatter<W>) -> fmt::Result {
        let digits = self.digits();
        let text = from_utf8(&digits).unwrap();
        f.pad(text)
    }
}

impl FromStr for Digest {
    type Err = NotADigest;

    ghost from_str_gives = { Reads };

    fn from_str(s: &str) -> Result<Digest, NotADigest> {
        Digest::read(s.as_bytes())
    }
}
