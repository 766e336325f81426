// A line of the script, and what is written for it.
ghost use Rattle.std.specs.Prelude.{Some, IfErr};
ghost use Rattle.rehearsal.specs.Answers.{Answers, LinePlayed};
ghost use Rattle.rehearsal.specs.Systems.{LeavesAll, RunsOrDamages};
ghost use Rattle.rehearsal.specs.Texts.{line_fault_text};

use crate::answer::Answer;
use crate::step::Step;
use crate::unplayed::Unplayed;
use crate::world::World;
use std::alloc::Global;
use std::fmt;

// Why the line with this number is not played.
#[derive(Drop)]
pub struct LineFault {
    pub number: u64,
    pub why: Unplayed,
}

impl fmt::Display for LineFault {
    ghost output = { λ e. Some (line_fault_text e) };

    fn fmt<W: fmt::Write>(&self, f: &mut fmt::Formatter<W>) -> fmt::Result {
        write!(f, "line {}: {}", self.number, self.why)
    }
}

// What is written for a line: nothing for one that asks for nothing.
pub type LineAnswer = Result<Option<Answer>, LineFault>;

// What a line answers, or why it is not played.
fn play_line(heap: Global, world: &mut World, line: &[u8]) -> Result<Option<Answer>, Unplayed>
    ensures { LinePlayed line.now world.old result world.new }
{
    match Step::read(heap, line)? {
        Some(step) => Ok(Some(step.play(heap, world)?)),
        None => Ok(None),
    }
}

// The answer to a line, which is given without its end. What it does to the world are steps of the system, if it damages nothing.
pub fn answer_line(heap: Global, world: &mut World, number: u64, line: &[u8]) -> LineAnswer
    ensures answer { Answers number line.now world.old result world.new }
    ensures unchanged { IfErr result (λ e. LeavesAll line.now e.why world.old world.new) }
    ensures steps { RunsOrDamages result world.old world.new }
{
    play_line(heap, world, line).map_err(|why| LineFault { number, why })
}
