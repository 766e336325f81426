// Bytes that a script gives, in one of the forms that it may write them in.
ghost use Rattle.std.specs.Prelude.{◌≡◌, ◌<◌, length, IfOk, MatchResult};
ghost use Rattle.script.specs.Generators.{generated};
ghost use Rattle.digest.specs.Digests.{digest_of};
ghost use Rattle.script.specs.Messages.{bytes_of, TwoRead, MessageRead};

use crate::fault::Fault;
use crate::generator::Generator;
use crate::numerals::FromWord;
use crate::scan::{is_word, next_word, two_words};
use crate::source::{Repeated, Source};
use digest::{Digest, Hasher, sha256};
use std::alloc::{AllocError, Global};

#[derive(Debug, PartialEq, Eq, Drop)]
pub enum Message {
    // these bytes
    Given(Vec<u8>),
    // one byte, so many times
    Repeated(u8, u64),
    // from this seed, so many bytes of the generator
    Random(u64, u64),
}

// The two words that a form has behind its name.
fn read_two<A: FromWord, B: FromWord>(heap: Global, words: &[u8]) -> Result<(A, B), Fault>
    ensures { TwoRead A.reads B.reads words.now result }
{
    let (one, two) = two_words(words).ok_or(Fault::WrongForm)?;
    Ok((A::from_word(heap, one)?, B::from_word(heap, two)?))
}

impl Message {
    // What the words after a step's name spell: nothing, HEX, repeat BYTE COUNT, or random SEED COUNT.
    pub fn read(heap: Global, words: &[u8]) -> Result<Message, Fault>
        ensures { MessageRead words.now result }
    {
        let Some((word, others)) = next_word(words) else {
            return Ok(Message::Given(Vec::new(heap)));
        };
        if is_word(word, b"repeat") {
            let (byte, count) = read_two(heap, others)?;
            return Ok(Message::Repeated(byte, count));
        }
        if is_word(word, b"random") {
            let (seed, count) = read_two(heap, others)?;
            return Ok(Message::Random(seed, count));
        }
        if next_word(others).is_some() {
            return Err(Fault::WrongForm);
        }
        Ok(Message::Given(Vec::from_word(heap, word)?))
    }

    // SHA-256 of the bytes. Those that are not given one by one are hashed from a small buffer, however many they are.
    pub fn digest(&self) -> Digest
        ensures { result ≡ digest_of (bytes_of self.now) }
    {
        match self {
            Message::Given(bytes) => sha256(bytes),
            Message::Repeated(byte, count) => digest_of_next(Repeated { byte: *byte }, *count),
            Message::Random(seed, count) => digest_of_next(Generator::new(*seed), *count),
        }
    }

    // How many bytes there are.
    pub fn length(&self) -> u64
        ensures { result ≡ length (bytes_of self.now) }
    {
        match self {
            Message::Given(bytes) => bytes.len() as u64,
            Message::Repeated(_, count) => *count,
            Message::Random(_, count) => *count,
        }
    }

    // The bytes, all in memory. No bytes need no memory.
    pub fn into_bytes(self, heap: Global) -> Result<Vec<u8>, AllocError>
        ensures { MatchResult result (λ v. v.items ≡ bytes_of self) (λ _. 0 < length (bytes_of self)) }
    {
        if self.length() == 0 {
            return Ok(Vec::new(heap));
        }
        match self {
            Message::Given(bytes) => Ok(bytes),
            Message::Repeated(byte, count) => Ok(vec![in heap; byte; count as usize]?),
            Message::Random(seed, count) => random_bytes(heap, seed, count),
        }
    }
}

fn random_bytes(heap: Global, seed: u64, count: u64) -> Result<Vec<u8>, AllocError>
    ensures { IfOk result (λ v. v.items ≡ generated seed count) }
{
    let mut bytes = vec![in heap; 0u8; count as usize]?;
    Generator::new(seed).fill(&mut bytes);
    Ok(bytes)
}

// How many bytes of a source are hashed at a time.
const BUFFER: usize = 4096;

// SHA-256 of a source's next bytes, so many of them.
fn digest_of_next<S: Source>(mut source: S, count: u64) -> Digest
    ensures { result ≡ digest_of (S.next_bytes source count) }
{
    let mut buffer = [0; BUFFER];
    let mut hasher = Hasher::new();
    // a turn for each full buffer: there is nothing to go over but their number
    for _turn in 0..count / BUFFER as u64 {
        source.fill(&mut buffer);
        hasher.update(&buffer);
    }
    let last = &mut buffer[..(count % BUFFER as u64) as usize];
    source.fill(last);
    hasher.update(last);
    hasher.finish()
}
