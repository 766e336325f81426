// The sweeper, over any store.
#![tactic(auto)]

mod deciding;
mod done;
mod laws;
mod looking;
mod noting;
mod sweeper;
#[cfg(test)]
mod tests;
mod turns;

pub use deciding::{has_finished_if_listed, noted_number};
pub use done::Done;
pub use laws::{steps_are_in_the_system, steps_keep_the_promise};
pub use sweeper::{Activity, Answer, Sweeper};
pub use turns::Turns;
