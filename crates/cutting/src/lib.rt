// Cuts files into pieces by what stands in them.
#![tactic(auto)]

mod ending;
mod number;
mod pieces;
mod refusal;
#[cfg(test)]
mod tests;

pub use ending::piece_length;
pub use number::number_after;
pub use pieces::{Pieces, check_length, cut};
pub use refusal::Refusal;
