// Making a whole day.
ghost use Rattle.std.specs.Prelude.{◌≡◌, Ok, Err, MatchResult};
ghost use Rattle.days.specs.Machines.{makes};
ghost use Rattle.days.specs.Wholes.{AddsAll, Finishes, MakesDay};

use crate::machine::{Answer, Machine};
use crate::source::Source;
use cutting::Refusal;
use std::alloc::Global;
use store::Store;

impl Machine {
    // Adds all files of a source to the day that it makes. Where one is not given or not added, the day is broken off: there is no machine any more that makes it.
    fn add_all<S: Store, F: Source>(
        self,
        heap: Global,
        store: &mut S,
        files: &mut F,
    ) -> Result<Machine, Refusal>
        ensures { MatchResult result (λ m. (m.number ≡ self.number) × AddsAll S.does F.gives self.number (makes self) store.old files.old (Ok (makes m)) store.new files.new) (λ r. AddsAll S.does F.gives self.number (makes self) store.old files.old (Err r) store.new files.new) }
    {
        let mut machine = self;
        while let Some(file) = files.next(heap)? {
            let (after, added) = machine.add(heap, store, &file.path, &file.bytes);
            added?;
            machine = after;
        }
        Ok(machine)
    }

    // So, and then names the day.
    fn finish<S: Store, F: Source>(self, heap: Global, store: &mut S, files: &mut F) -> Answer
        ensures { Finishes S.does F.gives self.number (makes self) store.old files.old result store.new files.new }
    {
        let machine = self.add_all(heap, store, files)?;
        let (machine, raised) = machine.raise(store);
        raised?;
        let (_, named) = machine.name(heap, store);
        named
    }

    // Makes a whole day of the files of a source. Where anything is refused or not given, nothing is named, and the machine makes no day; but one that made a day before goes on with that.
    pub fn make_day<S: Store, F: Source>(
        self,
        heap: Global,
        store: &mut S,
        files: &mut F,
    ) -> (Machine, Answer)
        ensures day { MakesDay S.does F.gives self.number (makes self) store.old files.old result.1 (makes result.0) store.new files.new }
        ensures number { result.0.number ≡ self.number }
    {
        let (machine, begun) = self.begin(heap, store);
        if let Err(refusal) = begun {
            return (machine, Err(refusal));
        }
        let number = machine.number();
        let answer = machine.finish(heap, store, files);
        (Machine::new(number), answer)
    }
}
