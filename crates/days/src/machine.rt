// A machine, and its steps. Each takes the machine, and hands it back with the answer.
ghost use Rattle.std.specs.Prelude.{◌≡◌, Some, None, Ok, MatchResult};
ghost use Rattle.std.specs.Option.{option_map};
ghost use Rattle.days.specs.Machines.{makes, work_of};
ghost use Rattle.cutting.specs.Results.{Cut};
ghost use Rattle.days.specs.Steps.{Adds, Begins, Breaks, IntoDay, Names, NoFile, Raises, Sees};

use crate::asking::check_machine;
use crate::done::Done;
use crate::making::{Making, Underway};
use cutting::{Refusal, cut};
use dayfile::{Day, Path};
use std::alloc::Global;
use store::{Store, check_piece};

#[derive(Drop)]
pub struct Machine {
    number: u8,
    making: Making,
}

// What a step has done, or why it is refused.
pub type Answer = Result<Done, Refusal>;

// The path and the pieces of a file that is to be added.
fn prepared<'a>(heap: Global, path: &[u8], file: &'a [u8]) -> Result<(Path, Vec<&'a [u8]>), Refusal>
    ensures { MatchResult result (λ f. (f.0.bytes.items ≡ path.now) × Cut file.now (Ok f.1)) (NoFile path.now file.now) }
{
    let pieces = cut(heap, file)?;
    Ok((Path::new(heap, path)?, pieces))
}

impl Machine {
    // A machine that comes up: it makes no day.
    pub fn new(number: u8) -> Machine
        ensures number { result.number ≡ number }
        ensures makes { makes result ≡ None }
    {
        Machine {
            number,
            making: Making::Nothing,
        }
    }

    pub fn number(&self) -> u8
        ensures { result ≡ self.now.number }
    {
        self.number
    }

    // The day that it makes, if it makes one.
    #[tactic(auto, using(crate::proofs::Cases::makes_day, crate::proofs::Cases::makes_none))]
    pub fn day(&self) -> Option<&Underway>
        ensures { option_map (λ u. work_of u.now) result ≡ makes self.now }
    {
        match &self.making {
            Making::Day(day) => Some(day),
            Making::Nothing => None,
        }
    }

    // A machine that makes this day.
    fn with(number: u8, day: Underway) -> Machine
        ensures number { result.number ≡ number }
        ensures makes { makes result ≡ Some (work_of day) }
    {
        Machine {
            number,
            making: Making::Day(day),
        }
    }

    // Begins a day.
    #[tactic(auto, using(crate::proofs::Cases::makes_day, crate::proofs::Cases::makes_none))]
    pub fn begin<S: Store>(self, heap: Global, store: &mut S) -> (Machine, Answer)
        ensures step { Begins S.does self.number (makes self) store.old result.1 (makes result.0) store.new }
        ensures number { result.0.number ≡ self.number }
    {
        if let Err(refusal) = check_machine(store, self.number) {
            return (self, Err(refusal));
        }
        let Machine { number, making } = self;
        if let Making::Day(day) = making {
            return (Machine::with(number, day), Err(Refusal::MakesDay));
        }
        let day = Underway {
            day: Day::new(heap),
            number: None,
        };
        (Machine::with(number, day), Ok(Done::Begun))
    }

    // Its number and the day that it makes, for a step; or the machine itself, and why there is no day for one.
    #[tactic(auto, using(crate::proofs::Cases::makes_day, crate::proofs::Cases::makes_none))]
    fn into_day<S: Store>(self, store: &mut S) -> Result<(u8, Underway), (Machine, Refusal)>
        ensures { IntoDay S.does self.number (makes self) store.old result store.new }
    {
        if let Err(refusal) = check_machine(store, self.number) {
            return Err((self, refusal));
        }
        let Machine { number, making } = self;
        match making {
            Making::Day(day) => Ok((number, day)),
            Making::Nothing => Err((Machine::new(number), Refusal::MakesNone)),
        }
    }

    // Sees to a piece for the day that it makes, as a file of its own.
    pub fn see<S: Store>(self, heap: Global, store: &mut S, piece: &[u8]) -> (Machine, Answer)
        ensures step { Sees S.does self.number piece.now (makes self) store.old result.1 (makes result.0) store.new }
        ensures number { result.0.number ≡ self.number }
    {
        if piece.is_empty() {
            return (self, Err(Refusal::PieceEmpty));
        }
        if let Err(refusal) = check_piece(piece.len() as u64) {
            return (self, Err(refusal));
        }
        match self.into_day(store) {
            Ok((number, mut day)) => {
                let answer = day.see(heap, number, store, piece);
                (Machine::with(number, day), answer)
            }
            Err((machine, refusal)) => (machine, Err(refusal)),
        }
    }

    // Adds a whole file to the day that it makes.
    pub fn add<S: Store>(
        self,
        heap: Global,
        store: &mut S,
        path: &[u8],
        file: &[u8],
    ) -> (Machine, Answer)
        ensures step { Adds S.does self.number path.now file.now (makes self) store.old result.1 (makes result.0) store.new }
        ensures number { result.0.number ≡ self.number }
    {
        let (path, pieces) = match prepared(heap, path, file) {
            Ok(found) => found,
            Err(refusal) => return (self, Err(refusal)),
        };
        match self.into_day(store) {
            Ok((number, mut day)) => {
                let answer = day.add_file(heap, number, store, path, file, &pieces);
                (Machine::with(number, day), answer)
            }
            Err((machine, refusal)) => (machine, Err(refusal)),
        }
    }

    // Raises its highest number by one, and has that for the day that it makes.
    pub fn raise<S: Store>(self, store: &mut S) -> (Machine, Answer)
        ensures step { Raises S.does self.number (makes self) store.old result.1 (makes result.0) store.new }
        ensures number { result.0.number ≡ self.number }
    {
        match self.into_day(store) {
            Ok((number, mut day)) => {
                let answer = day.raise(number, store);
                (Machine::with(number, day), answer)
            }
            Err((machine, refusal)) => (machine, Err(refusal)),
        }
    }

    // Gives the day that it makes its name, and makes none.
    pub fn name<S: Store>(self, heap: Global, store: &mut S) -> (Machine, Answer)
        ensures step { Names S.does self.number (makes self) store.old result.1 (makes result.0) store.new }
        ensures number { result.0.number ≡ self.number }
    {
        match self.into_day(store) {
            Ok((number, day)) => match day.name(heap, number, store) {
                Ok(named) => (Machine::new(number), Ok(Done::Named(named))),
                Err(refusal) => (Machine::with(number, day), Err(refusal)),
            },
            Err((machine, refusal)) => (machine, Err(refusal)),
        }
    }

    // Breaks off the day that it makes.
    pub fn break_off<S: Store>(self, store: &mut S) -> (Machine, Answer)
        ensures step { Breaks S.does self.number (makes self) store.old result.1 (makes result.0) store.new }
        ensures number { result.0.number ≡ self.number }
    {
        match self.into_day(store) {
            Ok((number, _)) => (Machine::new(number), Ok(Done::BrokenOff)),
            Err((machine, refusal)) => (machine, Err(refusal)),
        }
    }
}
