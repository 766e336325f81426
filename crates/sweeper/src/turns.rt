// What is to be put back and what is to be thrown away, at the end of a sweep.
ghost use Rattle.std.specs.Prelude.{◌≡◌};
ghost use Rattle.sweeper.specs.Steps.{TakesTurn};
ghost use Rattle.sweeper.specs.Sweepers.{is_over, turns_of};

use crate::done::Done;
use cutting::Refusal;
use digest::Digest;
use std::collections::BTreeSet;
use store::Store;

#[derive(Drop)]
pub struct Turns {
    pub back: BTreeSet<Digest>,
    pub away: BTreeSet<Digest>,
}

impl Turns {
    pub(crate) fn is_over(&self) -> bool
        ensures { result ≡ is_over (turns_of self.now) }
    {
        self.back.is_empty() && self.away.is_empty()
    }

    // Puts the next piece back that goes back, or else throws the next one away.
    pub(crate) fn take<S: Store>(&mut self, store: &mut S) -> Result<Option<Done>, Refusal>
        ensures { TakesTurn S.does (turns_of self.old) store.old result (turns_of self.new) store.new }
    {
        if let Some(first) = self.back.first() {
            let name = *first;
            store.put_back(name)?;
            self.back.pop_first();
            return Ok(Some(Done::PutBack(name)));
        }
        if let Some(first) = self.away.first() {
            let name = *first;
            store.throw_away(name)?;
            self.away.pop_first();
            return Ok(Some(Done::ThrownAway(name)));
        }
        Ok(None)
    }
}
