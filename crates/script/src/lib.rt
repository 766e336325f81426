// Reads the words of a script's lines, and the bytes that they give.
#![tactic(auto)]

mod fault;
mod generator;
mod message;
mod numerals;
mod quote;
mod scan;
mod source;
#[cfg(test)]
mod tests;

pub use fault::Fault;
pub use message::Message;
pub use numerals::FromWord;
pub use quote::quoted;
pub use scan::{is_word, next_word, one_word, three_words, two_words};
