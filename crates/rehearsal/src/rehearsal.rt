// A script that is played from the beginning on.
ghost use Rattle.std.specs.Prelude.{◌≡◌, ◌||◌, false, IfErr, IfOk, MatchResult};
ghost use Rattle.cutting.specs.declared.refusal.Refusal.TheVariants.{NoMemory};
ghost use Rattle.rehearsal.specs.Answers.{Answers};
ghost use Rattle.rehearsal.specs.Systems.{IsSound, LeavesAll, LosesNothing, RunsOrDamages, is_damage};
ghost use Rattle.rehearsal.specs.Worlds.{IsNew};

use crate::answer::Answer;
use crate::line::{LineAnswer, answer_line};
use crate::world::World;
use cutting::Refusal;
use std::alloc::Global;

// The world that the lines so far have led to, and whether one of them has damaged something. Where none has, that steps of the system lead to it from the beginning is known of every value of this type, and with it all that is promised of every mixture of steps.
#[derive(Drop)]
pub struct Rehearsal {
    world: World,
    damaged: bool,
    ghost reached: { ∥ IsSound damaged world ∥₁ },
}

// Has the line damaged something?
fn is_damage(answer: &LineAnswer) -> bool
    ensures { result ≡ is_damage answer.now }
{
    matches!(answer, Ok(Some(Answer::Flipped | Answer::Cut)))
}

impl Rehearsal {
    // Before the first line.
    #[tactic(auto, using(crate::proofs::Reached::new_is_sound))]
    pub fn new(heap: Global) -> Result<Rehearsal, Refusal>
        ensures new { MatchResult result (λ r. IsNew r.world) (λ r. r ≡ NoMemory) }
        ensures undamaged { IfOk result (λ r. r.damaged ≡ false) }
        ensures reached { IfOk result (λ r. ∥ IsSound r.damaged r.world ∥₁) }
    {
        Ok(Rehearsal {
            world: World::new(heap)?,
            damaged: false,
        })
    }

    // Plays the next line. Whatever lines there were before, if none of all has damaged anything, the world after it is reached by steps of the system, so that each statement of the promise is so of it; and no piece is missing that a kept day has, or that a machine on the list has seen to for the day that it is making.
    pub fn answer(&mut self, heap: Global, number: u64, line: &[u8]) -> LineAnswer
        ensures answer { Answers number line.now self.old.world result self.new.world }
        ensures damaged { self.new.damaged ≡ (self.old.damaged || is_damage result) }
        ensures unchanged { IfErr result (λ e. LeavesAll line.now e.why self.old.world self.new.world) }
        ensures steps { RunsOrDamages result self.old.world self.new.world }
        ensures reached { ∥ IsSound self.new.damaged self.new.world ∥₁ }
        ensures promise { self.new.damaged ≡ false → LosesNothing self.new.world }
    {
        let answer = answer_line(heap, &mut self.world, number, line);
        self.damaged |= is_damage(&answer);
        answer
    }
}
