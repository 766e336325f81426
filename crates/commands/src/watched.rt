// A store that remembers what it was asked for last, for messages.
ghost use Rattle.std.specs.Prelude.{◌≡◌};

use cutting::Refusal;
use digest::Digest;
use store::{DayName, Listing, Spot, Store, Sweep};

#[derive(Clone, Copy, Debug, PartialEq, Eq)]
pub enum Last {
    Day(DayName),
    Piece(Digest),
    Other,
}

#[derive(Drop)]
pub struct Watched<S> {
    pub store: S,
    pub last: Last,
}

impl<S> Watched<S> {
    pub fn new(store: S) -> Watched<S>
        ensures { result.store ≡ store }
    {
        Watched {
            store,
            last: Last::Other,
        }
    }
}

// It does what the store does.
impl<S: Store> Store for Watched<S> {
    ghost does = { λ s request answer t. S.does s.store request answer t.store };

    fn has_machine(&mut self, machine: u8) -> Result<bool, Refusal> {
        self.last = Last::Other;
        self.store.has_machine(machine)
    }

    fn read(&mut self, spot: Spot, name: Digest) -> Result<Option<Vec<u8>>, Refusal> {
        self.last = Last::Piece(name);
        self.store.read(spot, name)
    }

    fn enlist(&mut self, listing: Listing) -> Result<(), Refusal> {
        self.last = Last::Other;
        self.store.enlist(listing)
    }

    fn write(&mut self, name: Digest, piece: &[u8]) -> Result<(), Refusal> {
        self.last = Last::Piece(name);
        self.store.write(name, piece)
    }

    fn put_aside(&mut self, name: Digest) -> Result<bool, Refusal> {
        self.last = Last::Piece(name);
        self.store.put_aside(name)
    }

    fn put_back(&mut self, name: Digest) -> Result<bool, Refusal> {
        self.last = Last::Piece(name);
        self.store.put_back(name)
    }

    fn throw_away(&mut self, name: Digest) -> Result<bool, Refusal> {
        self.last = Last::Piece(name);
        self.store.throw_away(name)
    }

    fn highest(&mut self, machine: u8) -> Result<u32, Refusal> {
        self.last = Last::Other;
        self.store.highest(machine)
    }

    fn raise(&mut self, machine: u8, number: u32) -> Result<(), Refusal> {
        self.last = Last::Other;
        self.store.raise(machine, number)
    }

    fn name_day(&mut self, day: DayName, file: &[u8]) -> Result<(), Refusal> {
        self.last = Last::Day(day);
        self.store.name_day(day, file)
    }

    fn let_go(&mut self, day: DayName) -> Result<(), Refusal> {
        self.last = Last::Day(day);
        self.store.let_go(day)
    }

    fn names_of(&mut self, machine: u8) -> Result<Vec<Digest>, Refusal> {
        self.last = Last::Other;
        self.store.names_of(machine)
    }

    fn own_names(&mut self) -> Result<Vec<Digest>, Refusal> {
        self.last = Last::Other;
        self.store.own_names()
    }

    fn enlist_own(&mut self, name: Digest) -> Result<(), Refusal> {
        self.last = Last::Piece(name);
        self.store.enlist_own(name)
    }

    fn read_day(&mut self, day: DayName) -> Result<Option<Vec<u8>>, Refusal> {
        self.last = Last::Day(day);
        self.store.read_day(day)
    }

    fn kept(&mut self) -> Result<Sweep, Refusal> {
        self.last = Last::Other;
        self.store.kept()
    }

    fn keep(&mut self, sweep: Sweep) -> Result<(), Refusal> {
        self.last = Last::Other;
        self.store.keep(sweep)
    }
}
