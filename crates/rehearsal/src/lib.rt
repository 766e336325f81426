// Plays a script, line by line, and says what each line's answer is.
#![tactic(auto)]

mod answer;
mod effect;
mod line;
mod listing;
mod name;
mod pending;
mod rehearsal;
mod shown;
mod step;
mod stream;
#[cfg(test)]
mod tests;
mod unkept;
mod unplayed;
mod world;

pub use answer::Answer;
pub use cutting::Refusal;
pub use line::{LineAnswer, LineFault, answer_line};
pub use listing::{Listed, list_pieces};
pub use name::StepName;
pub use pending::{Answered, Pending};
pub use rehearsal::Rehearsal;
pub use script::{Fault, Message};
pub use shown::{KeptDay, Shown, ShownDay, ShownMachine, ShownSweeper};
pub use step::{Act, Move, Step};
pub use stream::play;
pub use unplayed::Unplayed;
pub use world::World;
