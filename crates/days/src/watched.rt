// A store for tests, on which a sweeper works between two requests. Nothing is claimed of it.
ghost use Rattle.std.specs.Prelude.{ℕ};

use cutting::Refusal;
use digest::Digest;
use store::{DayName, Listing, Memory, Spot, Store, Sweep};

#[derive(Drop)]
pub(crate) struct Watched {
    pub(crate) memory: Memory,
    // how many names were to be listed before the first piece was written
    pub(crate) listed_first: usize,
    // how many pieces were written
    pub(crate) written: usize,
}

impl Store for Watched {
    ghost does = { λ s q a t. Unit {0} };

    fn has_machine(&mut self, machine: u8) -> Result<bool, Refusal> {
        self.memory.has_machine(machine)
    }

    // Whatever is looked for aside has just been put back.
    fn read(&mut self, spot: Spot, name: Digest) -> Result<Option<Vec<u8>>, Refusal> {
        if matches!(spot, Spot::Aside) {
            self.memory.put_back(name)?;
        }
        self.memory.read(spot, name)
    }

    fn enlist(&mut self, listing: Listing) -> Result<(), Refusal> {
        if self.written == 0 {
            self.listed_first = self.listed_first.saturating_add(1);
        }
        self.memory.enlist(listing)
    }

    fn write(&mut self, name: Digest, piece: &[u8]) -> Result<(), Refusal> {
        self.written = self.written.saturating_add(1);
        self.memory.write(name, piece)
    }

    fn put_aside(&mut self, name: Digest) -> Result<bool, Refusal> {
        self.memory.put_aside(name)
    }

    fn put_back(&mut self, name: Digest) -> Result<bool, Refusal> {
        self.memory.put_back(name)
    }

    fn throw_away(&mut self, name: Digest) -> Result<bool, Refusal> {
        self.memory.throw_away(name)
    }

    fn highest(&mut self, machine: u8) -> Result<u32, Refusal> {
        self.memory.highest(machine)
    }

    fn raise(&mut self, machine: u8, number: u32) -> Result<(), Refusal> {
        self.memory.raise(machine, number)
    }

    fn name_day(&mut self, day: DayName, file: &[u8]) -> Result<(), Refusal> {
        self.memory.name_day(day, file)
    }

    fn let_go(&mut self, day: DayName) -> Result<(), Refusal> {
        self.memory.let_go(day)
    }

    fn names_of(&mut self, machine: u8) -> Result<Vec<Digest>, Refusal> {
        self.memory.names_of(machine)
    }

    fn own_names(&mut self) -> Result<Vec<Digest>, Refusal> {
        self.memory.own_names()
    }

    fn enlist_own(&mut self, name: Digest) -> Result<(), Refusal> {
        self.memory.enlist_own(name)
    }

    fn read_day(&mut self, day: DayName) -> Result<Option<Vec<u8>>, Refusal> {
        self.memory.read_day(day)
    }

    fn kept(&mut self) -> Result<Sweep, Refusal> {
        self.memory.kept()
    }

    fn keep(&mut self, sweep: Sweep) -> Result<(), Refusal> {
        self.memory.keep(sweep)
    }
}
