// Bytes in hexadecimal, and numbers in decimal.
ghost use Rattle.std.specs.Prelude.{◌≡◌, ℕ, ◌^◌, ◌<◌, List, length, IfSome, Result};
ghost use Rattle.script.specs.declared.fault.Fault.{Fault};
ghost use Rattle.script.specs.Numbers.{hex_value, most_in_store, most_number};
ghost use Rattle.script.specs.Readings.{DigitRead, HexRead, ByteValue, ByteRead, NumberValue, NumberRead};

use crate::fault::Fault;
use crate::quote::quoted;
use std::alloc::Global;

// What a word may be read as.
pub trait FromWord: Sized + Drop {
    ghost reads: { List ℕ → Result Self Fault → Type 0 };

    fn from_word(heap: Global, word: &[u8]) -> Result<Self, Fault>
        ensures { reads word.now result };
}

// No seed and no count is larger.
const MOST_NUMBER: u64 = 1_073_741_824;

// Nor is any other number.
const MOST_IN_STORE: u64 = 4_294_967_295;

// The number that a hexadecimal digit stands for; capitals are allowed. By hand: with the library's `to_digit` a word of digits took half as long again to read.
fn digit_value(c: u8) -> Option<u8>
    ensures value { result ≡ hex_value c }
    ensures small { IfSome result (λ d. d < 16) }
{
    match c {
        b'0'..=b'9' => Some(c - b'0'),
        b'a'..=b'f' => Some(c - b'a' + 10),
        b'A'..=b'F' => Some(c - b'A' + 10),
        _ => None,
    }
}

// The number that a digit at this place of a word stands for; places are counted from 1.
fn read_digit(heap: Global, digit: u8, place: usize) -> Result<u8, Fault>
    ensures { DigitRead digit place result }
{
    digit_value(digit).try_ok_or_else(|| Ok(Fault::NoHexDigit(quoted(heap, &[digit])?, place)))
}

// The bytes that a word spells, two digits each.
impl FromWord for Vec<u8> {
    ghost reads = { HexRead };

    fn from_word(heap: Global, word: &[u8]) -> Result<Vec<u8>, Fault> {
        let (pairs, last) = word.as_chunks::<2>();
        let mut bytes = Vec::with_capacity(heap, pairs.len())?;
        for (i, [high, low]) in pairs.iter().enumerate() {
            let high = read_digit(heap, *high, 2 * i + 1)?;
            let low = read_digit(heap, *low, 2 * i + 2)?;
            bytes.push(high * 16 + low)?;
        }
        if let Some(digit) = last.first() {
            read_digit(heap, *digit, word.len())?;
            return Err(Fault::OddDigits(word.len()));
        }
        Ok(bytes)
    }
}

// The byte that two digits spell.
fn byte_value(word: &[u8]) -> Option<u8>
    ensures { ByteValue word.now result }
{
    let [high, low] = word else {
        return None;
    };
    Some(digit_value(*high)? * 16 + digit_value(*low)?)
}

impl FromWord for u8 {
    ghost reads = { ByteRead };

    fn from_word(heap: Global, word: &[u8]) -> Result<u8, Fault> {
        byte_value(word).try_ok_or_else(|| Ok(Fault::NoByte(quoted(heap, word)?)))
    }
}

// The number that decimal digits spell, where it is one and not too large. By hand, since `parse` takes a plus sign, too.
fn number_value(word: &[u8], most: u64) -> Option<u64>
    requires { most < 2 ^ 32 }
    ensures { NumberValue most word.now result }
{
    let mut number = 0;
    for c in word {
        let digit = (*c as char).to_digit(10)?;
        number = number * 10 + u64::from(digit);
        if number > most {
            return None;
        }
    }
    Some(number)
}

// The number that a word is, or that it is none.
fn read_number(heap: Global, word: &[u8], most: u64) -> Result<u64, Fault>
    requires { most < 2 ^ 32 }
    ensures { NumberRead most word.now result }
{
    number_value(word, most).try_ok_or_else(|| Ok(Fault::NoNumber(quoted(heap, word)?, most)))
}

// A seed or a count.
impl FromWord for u64 {
    ghost reads = { NumberRead most_number };

    fn from_word(heap: Global, word: &[u8]) -> Result<u64, Fault> {
        read_number(heap, word, MOST_NUMBER)
    }
}

// Any other number.
impl FromWord for u32 {
    ghost reads = { NumberRead most_in_store };

    fn from_word(heap: Global, word: &[u8]) -> Result<u32, Fault> {
        Ok(read_number(heap, word, MOST_IN_STORE)? as u32)
    }
}
