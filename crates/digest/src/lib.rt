// SHA-256, and the digest that is a piece's name.
#![tactic(auto)]

mod compress;
mod constants;
mod examples;
mod functions;
mod hasher;
mod hex;
mod many;
mod schedule;
#[cfg(test)]
mod tests;
mod value;
mod words;

pub use examples::worked_examples;
pub use hasher::{Hasher, sha256};
pub use hex::{NotADigest, hex_digit};
pub use many::{sha256_each, sha256_parts};
pub use value::{Digest, order_is_total};
