// What a store is asked for.
ghost use Rattle.std.specs.Prelude.{List};
ghost use Rattle.store.specs.Requests.{Request, Answer, done, told, number, bytes, names, sweeping};
ghost use Rattle.store.specs.Requests as request;

use crate::day::DayName;
use crate::listing::Listing;
use crate::piece::Spot;
use crate::sweep::Sweep;
use cutting::Refusal;
use digest::Digest;

// The requests of machines and of the sweeper. Each takes `&mut self`, also where it only looks, since others may change a store between two requests.
pub trait Store {
    // From one state a request is given this answer, and leaves the other state.
    ghost does: { Self → Request → Answer → Self → Type 0 };

    // Is this machine on the list?
    fn has_machine(&mut self, machine: u8) -> Result<bool, Refusal>
        ensures { does self.old (request.HasMachine machine) (told result) self.new };

    // What lies there under a name, whether it is of that name or not.
    fn read(&mut self, spot: Spot, name: Digest) -> Result<Option<Vec<u8>>, Refusal>
        ensures { does self.old (request.Read spot name) (bytes result) self.new };

    // Adds a name to the list of a machine.
    fn enlist(&mut self, listing: Listing) -> Result<(), Refusal>
        ensures { does self.old (request.Enlist listing) (done result) self.new };

    // Writes a piece in its place.
    fn write(&mut self, name: Digest, piece: &[u8]) -> Result<(), Refusal>
        ensures { does self.old (request.Write name piece.now) (done result) self.new };

    // From its place aside; whether there was anything.
    fn put_aside(&mut self, name: Digest) -> Result<bool, Refusal>
        ensures { does self.old (request.PutAside name) (told result) self.new };

    // From aside to its place; whether there was anything.
    fn put_back(&mut self, name: Digest) -> Result<bool, Refusal>
        ensures { does self.old (request.PutBack name) (told result) self.new };

    // From aside away; whether there was anything.
    fn throw_away(&mut self, name: Digest) -> Result<bool, Refusal>
        ensures { does self.old (request.ThrowAway name) (told result) self.new };

    // The highest number that a machine ever raised, or 0.
    fn highest(&mut self, machine: u8) -> Result<u32, Refusal>
        ensures { does self.old (request.Highest machine) (number result) self.new };

    // Sets it.
    fn raise(&mut self, machine: u8, number: u32) -> Result<(), Refusal>
        ensures { does self.old (request.Raise machine number) (done result) self.new };

    // Gives a day its name: these bytes lie under it then.
    fn name_day(&mut self, day: DayName, file: &[u8]) -> Result<(), Refusal>
        ensures { does self.old (request.NameDay day file.now) (done result) self.new };

    // Lets a day go.
    fn let_go(&mut self, day: DayName) -> Result<(), Refusal>
        ensures { does self.old (request.LetGo day) (done result) self.new };

    // The names in the list of a machine, in any order.
    fn names_of(&mut self, machine: u8) -> Result<Vec<Digest>, Refusal>
        ensures { does self.old (request.NamesOf machine) (names result) self.new };

    // The names in the list of the sweeper, in any order.
    fn own_names(&mut self) -> Result<Vec<Digest>, Refusal>
        ensures { does self.old request.OwnNames (names result) self.new };

    // Adds a name to the list of the sweeper.
    fn enlist_own(&mut self, name: Digest) -> Result<(), Refusal>
        ensures { does self.old (request.EnlistOwn name) (done result) self.new };

    // What lies under the name of a day, whether it is the file of such a day or not.
    fn read_day(&mut self, day: DayName) -> Result<Option<Vec<u8>>, Refusal>
        ensures { does self.old (request.ReadDay day) (bytes result) self.new };

    // What is kept of what the sweeper does.
    fn kept(&mut self) -> Result<Sweep, Refusal>
        ensures { does self.old request.Kept (sweeping result) self.new };

    // Keeps this of what the sweeper does.
    fn keep(&mut self, sweep: Sweep) -> Result<(), Refusal>
        ensures { does self.old (request.Keep sweep) (done result) self.new };
}
