// What a store is asked for, and the store in memory.
#![tactic(auto)]

mod contents;
mod damage;
mod day;
mod lines;
mod listing;
mod memory;
mod names;
mod piece;
mod requests;
mod sweep;
#[cfg(test)]
mod tests;
mod texts;

pub use contents::{Contents, ListedDay, Lying};
pub use cutting::Refusal;
pub use day::DayName;
pub use lines::write_each;
pub use listing::Listing;
pub use memory::Memory;
pub use names::same_is_equality;
pub use piece::{Spot, check_piece};
pub use requests::Store;
pub use sweep::{MACHINES, Noted, Sweep};
