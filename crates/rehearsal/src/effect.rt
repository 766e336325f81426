// What a step does, and what it answers.
ghost use Rattle.script.specs.Messages.{bytes_of};
ghost use Rattle.rehearsal.specs.Answers.{Plays};
ghost use Rattle.rehearsal.specs.Listings.{Lists};

use crate::answer::Answer;
use crate::listing::{Listed, list_pieces};
use crate::step::Step;
use crate::world::World;
use cutting::{Refusal, check_length};
use script::Message;
use std::alloc::Global;

// The pieces of a file of these bytes. A file that is too long is refused before they are all in memory, unless they already are.
fn cut_message(heap: Global, message: Message) -> Result<Vec<Listed>, Refusal>
    ensures { Lists (bytes_of message) result }
{
    check_length(message.length())?;
    let file = message.into_bytes(heap)?;
    list_pieces(heap, &file)
}

impl Step {
    // A match, and no closure or dyn value, since the contract names what each step answers.
    pub fn play(self, heap: Global, world: &mut World) -> Result<Answer, Refusal>
        ensures { Plays self world.old result world.new }
    {
        match self {
            Step::Digest(message) => Ok(Answer::Digest(message.digest())),
            Step::Cut(message) => Ok(Answer::Pieces(cut_message(heap, message)?)),
            Step::Machine(machine, act) => Ok(Answer::Done(world.act(machine, act)?)),
            Step::LetGo(machine, number) => {
                world.let_go(machine, number)?;
                Ok(Answer::LetGo)
            }
            Step::Back(machine, number, path) => {
                Ok(Answer::File(world.back(machine, number, &path)?))
            }
            Step::Bytes(machine, number) => Ok(Answer::File(world.bytes(machine, number)?)),
            Step::FlipPiece(spot, at, message) => {
                world.flip(spot, at, message.digest())?;
                Ok(Answer::Flipped)
            }
            Step::FlipDay(machine, number, at) => {
                world.flip_day(machine, number, at)?;
                Ok(Answer::Flipped)
            }
            Step::CutDay(machine, number, length) => {
                world.cut_day(machine, number, length)?;
                Ok(Answer::Cut)
            }
            Step::Part(machine) => {
                world.part(machine)?;
                Ok(Answer::Parted)
            }
            Step::Sweeper(turn) => Ok(Answer::Swept(world.sweep(turn)?)),
            Step::Stop => {
                world.stop()?;
                Ok(Answer::Stopped)
            }
            Step::Show => Ok(Answer::Shown(world.show()?)),
        }
    }
}
