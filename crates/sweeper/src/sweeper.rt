// The sweeper, and its steps. Each takes the sweeper, and hands it back with the answer.
ghost use Rattle.std.specs.Prelude.{◌≡◌, [], false, IfErr, IfOk, Err, Ok, MatchResult};
ghost use Rattle.sweeper.specs.Steps.{AsksFinished, ComesUp, Decides, FindsTurns, FindsUnused, Looks, MayDecide, Nexts, Notes, NotesNumbers, PutsAside, PutsFirst, ReadsDays, RestsIfDone, Turn};
ghost use Rattle.sweeper.specs.Sweepers.{all_aside, is_resting, puts, rests, sweeping, turns_of};
ghost use Rattle.cutting.specs.declared.refusal.Refusal.TheVariants.{NotAtThatPoint};

use crate::deciding::{all_have_finished, all_turns};
use crate::done::Done;
use crate::looking::{unused_names, used_names};
use crate::noting::highest_numbers;
use crate::turns::Turns;
use cutting::Refusal;
use digest::Digest;
use std::alloc::Global;
use std::collections::BTreeSet;
use store::{Noted, Store, Sweep};

// What it does.
#[derive(Drop)]
pub enum Activity {
    Rests,
    // these are left to be put aside
    PutsAside(BTreeSet<Digest>),
    // it waits for a day of each machine above these numbers
    Waits(Noted),
    // it puts back, and then throws away
    Ends(Turns),
    // it stopped while it did so
    DecidesAnew,
}

#[derive(Drop)]
pub struct Sweeper {
    pub(crate) activity: Activity,
}

// What a step has done, or why it is refused.
pub type Answer = Result<Done, Refusal>;

impl Sweeper {
    // A sweeper that rests, for a store that keeps just that; `come_up` is for any.
    pub fn new() -> Sweeper
        ensures { sweeping result ≡ rests }
    {
        Sweeper {
            activity: Activity::Rests,
        }
    }

    // A sweeper that comes up, after a stop.
    pub fn come_up<S: Store>(store: &mut S) -> Result<Sweeper, Refusal>
        ensures { ComesUp S.does store.old result store.new }
    {
        let activity = match store.kept()? {
            Sweep::Rests => Activity::Rests,
            Sweep::Waits(noted) => Activity::Waits(noted),
            Sweep::Ends => Activity::DecidesAnew,
        };
        Ok(Sweeper { activity })
    }

    // What it does.
    pub fn activity(&self) -> &Activity
        ensures { result.now ≡ self.now.activity }
    {
        &self.activity
    }

    // Does it rest?
    fn check_rests(&self) -> Result<(), Refusal>
        ensures { MatchResult result (λ _. sweeping self.now ≡ rests) (λ r. (is_resting (sweeping self.now) ≡ false) × (r ≡ NotAtThatPoint)) }
    {
        match &self.activity {
            Activity::Rests => Ok(()),
            _ => Err(Refusal::NotAtThatPoint),
        }
    }

    // What is to be put aside. The days are read first, since the lowest number wins.
    fn find_unused<S: Store>(
        &self,
        heap: Global,
        store: &mut S,
    ) -> Result<BTreeSet<Digest>, Refusal>
        ensures ok { IfOk result (λ left. FindsUnused S.does (sweeping self.now) store.old (Ok left.keys) store.new) }
        ensures err { IfErr result (λ r. FindsUnused S.does (sweeping self.now) store.old (Err r) store.new) }
    {
        let used = used_names(heap, store)?;
        self.check_rests()?;
        unused_names(heap, store, &used)
    }

    // Looks which pieces are in their place that no day has.
    pub fn look<S: Store>(self, heap: Global, store: &mut S) -> (Sweeper, Answer)
        ensures { Looks S.does (sweeping self) store.old result.1 (sweeping result.0) store.new }
    {
        match self.find_unused(heap, store) {
            Ok(left) => {
                let count = left.len();
                let activity = Activity::PutsAside(left);
                (Sweeper { activity }, Ok(Done::Looked(count)))
            }
            Err(refusal) => (self, Err(refusal)),
        }
    }

    // Puts the next piece aside.
    pub fn aside<S: Store>(self, store: &mut S) -> (Sweeper, Answer)
        ensures { PutsAside S.does (sweeping self) store.old result.1 (sweeping result.0) store.new }
    {
        match self.activity {
            Activity::PutsAside(mut left) => {
                let answer = put_first_aside(&mut left, store);
                let activity = Activity::PutsAside(left);
                (Sweeper { activity }, answer)
            }
            activity => (Sweeper { activity }, Err(Refusal::NotAtThatPoint)),
        }
    }

    // Is all aside that is to be?
    fn check_all_aside(&self) -> Result<(), Refusal>
        ensures { MatchResult result (λ _. sweeping self.now ≡ puts []) (λ r. (all_aside (sweeping self.now) ≡ false) × (r ≡ NotAtThatPoint)) }
    {
        match &self.activity {
            Activity::PutsAside(left) if left.is_empty() => Ok(()),
            _ => Err(Refusal::NotAtThatPoint),
        }
    }

    fn note_numbers<S: Store>(&self, store: &mut S) -> Result<Noted, Refusal>
        ensures { NotesNumbers S.does (sweeping self.now) store.old result store.new }
    {
        self.check_all_aside()?;
        let noted = highest_numbers(store)?;
        store.keep(Sweep::Waits(noted))?;
        Ok(noted)
    }

    // Notes the highest number of every machine, and waits.
    pub fn note<S: Store>(self, store: &mut S) -> (Sweeper, Answer)
        ensures { Notes S.does (sweeping self) store.old result.1 (sweeping result.0) store.new }
    {
        match self.note_numbers(store) {
            Ok(noted) => {
                let activity = Activity::Waits(noted);
                (Sweeper { activity }, Ok(Done::Noted))
            }
            Err(refusal) => (self, Err(refusal)),
        }
    }

    // Has every machine finished a day that it waits for?
    fn ask_finished<S: Store>(&self, store: &mut S) -> Result<bool, Refusal>
        ensures { AsksFinished S.does (sweeping self.now) store.old result store.new }
    {
        match &self.activity {
            Activity::Waits(noted) => all_have_finished(store, noted),
            _ => Ok(true),
        }
    }

    // May it decide?
    fn check_decides(&self, finished: bool) -> Result<(), Refusal>
        ensures { MayDecide (sweeping self.now) finished result }
    {
        match &self.activity {
            Activity::Waits(_) | Activity::DecidesAnew if finished => Ok(()),
            Activity::Waits(_) | Activity::DecidesAnew => Err(Refusal::Unfinished),
            _ => Err(Refusal::NotAtThatPoint),
        }
    }

    // What days have. The days above the noted numbers are looked for first: a day that is finished in between must not count without its pieces.
    fn read_days<S: Store>(&self, heap: Global, store: &mut S) -> Result<BTreeSet<Digest>, Refusal>
        ensures ok { IfOk result (λ used. ReadsDays S.does (sweeping self.now) store.old (Ok used.keys) store.new) }
        ensures err { IfErr result (λ r. ReadsDays S.does (sweeping self.now) store.old (Err r) store.new) }
    {
        let finished = self.ask_finished(store)?;
        let used = used_names(heap, store)?;
        self.check_decides(finished)?;
        Ok(used)
    }

    fn find_turns<S: Store>(&self, heap: Global, store: &mut S) -> Result<Turns, Refusal>
        ensures { FindsTurns S.does (sweeping self.now) store.old result store.new }
    {
        let used = self.read_days(heap, store)?;
        let turns = all_turns(heap, store, &used)?;
        store.keep(Sweep::Ends)?;
        Ok(turns)
    }

    // Decides which of all that is aside any day has, old or new.
    pub fn decide<S: Store>(self, heap: Global, store: &mut S) -> (Sweeper, Answer)
        ensures { Decides S.does (sweeping self) store.old result.1 (sweeping result.0) store.new }
    {
        match self.find_turns(heap, store) {
            Ok(turns) => {
                let done = Done::Decided(turns.back.len(), turns.away.len());
                let (sweeper, rested) = Sweeper::rest_if_done(turns, store);
                (sweeper, rested.map(|_| done))
            }
            Err(refusal) => (self, Err(refusal)),
        }
    }

    // Rests, where nothing is left to put back and to throw away.
    fn rest_if_done<S: Store>(turns: Turns, store: &mut S) -> (Sweeper, Result<(), Refusal>)
        ensures { RestsIfDone S.does (turns_of turns) store.old result.1 (sweeping result.0) store.new }
    {
        if !turns.is_over() {
            let activity = Activity::Ends(turns);
            return (Sweeper { activity }, Ok(()));
        }
        match store.keep(Sweep::Rests) {
            Ok(()) => (Sweeper::new(), Ok(())),
            Err(refusal) => {
                let activity = Activity::Ends(turns);
                (Sweeper { activity }, Err(refusal))
            }
        }
    }

    // One turn, and then it may rest.
    fn take_turn<S: Store>(mut turns: Turns, store: &mut S) -> (Sweeper, Answer)
        ensures { Turn S.does (turns_of turns) store.old result.1 (sweeping result.0) store.new }
    {
        match turns.take(store) {
            Ok(done) => {
                let (sweeper, rested) = Sweeper::rest_if_done(turns, store);
                (sweeper, rested.map(|_| done.unwrap_or(Done::Rested)))
            }
            Err(refusal) => {
                let activity = Activity::Ends(turns);
                (Sweeper { activity }, Err(refusal))
            }
        }
    }

    // Puts the next piece back that goes back, or else throws the next one away.
    pub fn next<S: Store>(self, store: &mut S) -> (Sweeper, Answer)
        ensures { Nexts S.does (sweeping self) store.old result.1 (sweeping result.0) store.new }
    {
        match self.activity {
            Activity::Ends(turns) => Sweeper::take_turn(turns, store),
            activity => (Sweeper { activity }, Err(Refusal::NotAtThatPoint)),
        }
    }
}

// Lists the first that is left, and puts it aside.
fn put_first_aside<S: Store>(left: &mut BTreeSet<Digest>, store: &mut S) -> Answer
    ensures { PutsFirst S.does left.old.keys store.old result left.new.keys store.new }
{
    let Some(first) = left.first() else {
        return Err(Refusal::NotAtThatPoint);
    };
    let name = *first;
    store.enlist_own(name)?;
    store.put_aside(name)?;
    left.pop_first();
    Ok(Done::PutAside(name))
}
