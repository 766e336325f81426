// Where the files of a day come from.
ghost use Rattle.std.specs.Prelude.{◌<◌, IfOk, IfSome, List, Option, Result, ℕ};
ghost use Rattle.cutting.specs.declared.refusal.Refusal.{Refusal};
ghost use Rattle.days.specs.Sources.{given};

use cutting::Refusal;
use std::alloc::Global;
use std::collections::VecDeque;

// A file that is to be in a day.
#[derive(Drop)]
pub struct GivenFile {
    pub path: Vec<u8>,
    pub bytes: Vec<u8>,
}

pub trait Source {
    // From one state a file is given, its path and its bytes, or none is left, or it cannot be read; and this leaves the other state.
    ghost gives: { Self → Result (Option (List ℕ × List ℕ)) Refusal → Self → Type 0 };

    // No more than so many files are left.
    ghost left: { Self → ℕ };

    // The next file.
    fn next(&mut self, heap: Global) -> Result<Option<GivenFile>, Refusal>
        ensures gives { gives self.old (given result) self.new }
        ensures fewer { IfOk result (λ f. IfSome f (λ _. left self.new < left self.old)) };
}

// Files that are all in memory, the first one at the front.
impl Source for VecDeque<GivenFile> {
    ghost use Rattle.days.specs.Sources.{TakesFirst, file_of};
    ghost use Rattle.std.specs.Prelude.{length, map};

    ghost gives = { λ s r t. TakesFirst (map file_of s.items) r (map file_of t.items) };

    ghost left = { λ s. length s.items };

    fn next(&mut self, _heap: Global) -> Result<Option<GivenFile>, Refusal> {
        Ok(self.pop_front())
    }
}
