// A machine that makes days, over any store.
#![tactic(auto)]

mod asking;
mod done;
mod file_laws;
mod laws;
mod machine;
mod making;
mod reading;
mod seeing;
mod source;
#[cfg(test)]
mod tests;
#[cfg(test)]
mod watched;
mod whole;

pub use done::{Added, Done};
pub use file_laws::{back_gives_what_is_listed, files_come_back};
pub use laws::{
    memory_is_exact, steps_are_in_the_system, steps_keep_the_promise, whole_days_are_made,
};
pub use machine::{Answer, Machine};
pub use making::Underway;
pub use reading::back;
pub use source::{GivenFile, Source};
