// What a script plays on: a store, its machines and its sweeper.
ghost use Rattle.std.specs.Prelude.{◌≡◌, ◌<◌, ◌≤◌, MatchResult, map};
ghost use Rattle.std.specs.Option.{option_map};
ghost use Rattle.cutting.specs.declared.refusal.Refusal.TheVariants.{NoMemory, Unknown};
ghost use Rattle.dayfile.specs.Entries.{names_of};
ghost use Rattle.dayfile.specs.Files.{entry_of};
ghost use Rattle.days.specs.Machines.{makes};
ghost use Rattle.rehearsal.specs.Numbering.{IsNumbered};
ghost use Rattle.std.specs.Prelude.{vec_items, IfErr, IfOk};
ghost use Rattle.sweeper.specs.Sweepers.{sweeping};
ghost use Rattle.rehearsal.specs.Shows.{ShowsDay, ShowsKept, ShowsSweeper, made, shown_day};

use crate::shown::{KeptDay, Shown, ShownDay, ShownMachine, ShownSweeper};
use crate::step::{Act, Move};
use cutting::{Refusal, check_length};
use dayfile::{FileEntry, Path, read_names};
use days::{Answer, Done, Machine};
use digest::Digest;
use std::alloc::Global;
use std::collections::BTreeSet;
use std::mem;
use store::{DayName, ListedDay, Memory, Spot, Store, check_piece};
use sweeper::{Activity, Sweeper, noted_number};

// The machines that are on the list of machines to begin with.
const MACHINES: [u8; 4] = [0, 1, 2, 3];

#[derive(Drop)]
pub struct World {
    heap: Global,
    store: Memory,
    machines: Vec<Machine>,
    sweeper: Sweeper,
    ghost numbered: { IsNumbered machines.items },
}

impl Act {
    ghost use Rattle.rehearsal.specs.Acts.{Acts, Fits, Unfit};

    // Has the piece or the file that it asks for, and its path, the length that it may have? Asked before the bytes are all in memory.
    fn check(&self, heap: Global) -> Result<(), Refusal>
        ensures { MatchResult result (λ _. Fits self.now) (Unfit self.now) }
    {
        match self {
            Act::See(message) => {
                if message.length() == 0 {
                    return Err(Refusal::PieceEmpty);
                }
                check_piece(message.length())
            }
            Act::File(path, message) => {
                check_length(message.length())?;
                Path::new(heap, path)?;
                Ok(())
            }
            _ => Ok(()),
        }
    }

    // What a machine does, and the machine after it.
    fn done_by(self, machine: Machine, heap: Global, store: &mut Memory) -> (Machine, Answer)
        ensures step { Acts self machine.number (makes machine) store.old result.1 (makes result.0) store.new }
        ensures number { result.0.number ≡ machine.number }
    {
        match self {
            Act::Begin => machine.begin(heap, store),
            Act::See(message) => match message.into_bytes(heap) {
                Ok(piece) => machine.see(heap, store, &piece),
                Err(_) => (machine, Err(Refusal::NoMemory)),
            },
            Act::File(path, message) => match message.into_bytes(heap) {
                Ok(file) => machine.add(heap, store, &path, &file),
                Err(_) => (machine, Err(Refusal::NoMemory)),
            },
            Act::Raise => machine.raise(store),
            Act::Name => machine.name(heap, store),
            Act::Break => machine.break_off(store),
        }
    }
}

impl Move {
    ghost use Rattle.rehearsal.specs.Acts.{SweepsAs};
    ghost use Rattle.sweeper.specs.Sweepers.{sweeping};

    // What the sweeper does, and the sweeper after it.
    fn done_by(
        self,
        sweeper: Sweeper,
        heap: Global,
        store: &mut Memory,
    ) -> (Sweeper, sweeper::Answer)
        ensures { SweepsAs self (sweeping sweeper) store.old result.1 (sweeping result.0) store.new }
    {
        match self {
            Move::Look => sweeper.look(heap, store),
            Move::Aside => sweeper.aside(store),
            Move::Note => sweeper.note(store),
            Move::Decide => sweeper.decide(heap, store),
            Move::Next => sweeper.next(store),
        }
    }
}

impl World {
    ghost use Rattle.rehearsal.specs.Systems.{GivesBack};
    ghost use Rattle.std.specs.Prelude.{vec_items};
    ghost use Rattle.store.specs.Memories.{state_of};
    ghost use Rattle.sweeper.specs.Sweepers.{sweeping};
    ghost use Rattle.rehearsal.specs.Shows.{Shows, seen, shown_machine};
    ghost use Rattle.rehearsal.specs.Worlds.{ActsIn, CutsDay, FlipsDay, FlipsPiece, HasBack, IsNew, LetsGo, Parts, ReadsDay, Stops, Sweeps};

    // An empty store, machines that make no day, and a sweeper that rests.
    pub fn new(heap: Global) -> Result<World, Refusal>
        ensures { MatchResult result IsNew (λ r. r ≡ NoMemory) }
    {
        let machines = vec![in heap;
            Machine::new(0),
            Machine::new(1),
            Machine::new(2),
            Machine::new(3),
        ]?;
        Ok(World {
            heap,
            store: Memory::new(heap, &MACHINES)?,
            machines,
            sweeper: Sweeper::new(),
        })
    }

    // A machine does something.
    pub fn act(&mut self, machine: u32, act: Act) -> Result<Done, Refusal>
        ensures { ActsIn act machine self.old result self.new }
    {
        act.check(self.heap)?;
        let Some(slot) = self.machines.get_mut(machine as usize) else {
            return Err(Refusal::Unknown);
        };
        let taken = mem::replace(slot, Machine::new(machine as u8));
        let (after, answer) = act.done_by(taken, self.heap, &mut self.store);
        *slot = after;
        answer
    }

    // A day of a machine is let go.
    pub fn let_go(&mut self, machine: u32, number: u32) -> Result<(), Refusal>
        ensures { LetsGo machine number self.old result self.new }
    {
        self.store.let_go(day_name(machine, number)?)
    }

    // The file of a path in a day of a machine is had back.
    fn read_back(&mut self, machine: u32, number: u32, path: &[u8]) -> Result<Vec<u8>, Refusal>
        ensures { HasBack machine number path.now self.old result self.new }
    {
        let day = day_name(machine, number)?;
        days::back(self.heap, &mut self.store, day, path)
    }

    // So, and in a world that is reached it is the very file that the day was made with.
    pub fn back(&mut self, machine: u32, number: u32, path: &[u8]) -> Result<Vec<u8>, Refusal>
        ensures has { HasBack machine number path.now self.old result self.new }
        ensures whole { GivesBack machine number path.now self.old result }
    {
        self.read_back(machine, number, path)
    }

    // The bytes that lie under the name of a day of a machine, whatever they are.
    pub fn bytes(&mut self, machine: u32, number: u32) -> Result<Vec<u8>, Refusal>
        ensures { ReadsDay machine number self.old result self.new }
    {
        let day = day_name(machine, number)?;
        self.store.read_day(day)?.ok_or(Refusal::Unknown)
    }

    // Each bit of a byte is turned round of what lies there under a name.
    pub fn flip(&mut self, spot: Spot, at: u32, name: Digest) -> Result<(), Refusal>
        ensures { FlipsPiece spot at name self.old result self.new }
    {
        self.store.flip(spot, name, at as usize)
    }

    // So with what lies under the name of a day of a machine.
    pub fn flip_day(&mut self, machine: u32, number: u32, at: u32) -> Result<(), Refusal>
        ensures { FlipsDay machine number at self.old result self.new }
    {
        let day = day_name(machine, number)?;
        self.store.flip_day(day, at as usize)
    }

    // Only so many bytes are left of it.
    pub fn cut_day(&mut self, machine: u32, number: u32, length: u32) -> Result<(), Refusal>
        ensures { CutsDay machine number length self.old result self.new }
    {
        let day = day_name(machine, number)?;
        self.store.cut_day(day, length as usize)
    }

    // A machine is gone for good.
    pub fn part(&mut self, machine: u32) -> Result<(), Refusal>
        ensures { Parts machine self.old result self.new }
    {
        let Ok(machine) = u8::try_from(machine) else {
            return Err(Refusal::Unknown);
        };
        self.store.take_off(machine)
    }

    // The sweeper does something.
    pub fn sweep(&mut self, turn: Move) -> Result<sweeper::Done, Refusal>
        ensures { Sweeps turn self.old result self.new }
    {
        let taken = mem::replace(&mut self.sweeper, Sweeper::new());
        let (after, answer) = turn.done_by(taken, self.heap, &mut self.store);
        self.sweeper = after;
        answer
    }

    // The sweeper stops, and comes up again.
    pub fn stop(&mut self) -> Result<(), Refusal>
        ensures { Stops self.old result self.new }
    {
        self.sweeper = Sweeper::come_up(&mut self.store)?;
        Ok(())
    }

    // What is where.
    pub fn show(&self) -> Result<Shown, Refusal>
        ensures { MatchResult result (Shows (state_of self.now.store) (vec_items self.now.machines) (sweeping self.now.sweeper)) (λ r. r ≡ NoMemory) }
    {
        let mut machines = Vec::new(self.heap);
        for machine in &self.machines {
            machines.push(self.shown_machine(machine)?)?;
        }
        let contents = self.store.contents()?;
        Ok(Shown {
            place: contents.place,
            aside: contents.aside,
            listed: contents.listed,
            own: contents.own,
            days: kept_days(self.heap, &contents.days)?,
            machines,
            sweeper: shown_sweeper(self.heap, &self.sweeper)?,
        })
    }

    fn shown_machine(&self, machine: &Machine) -> Result<ShownMachine, Refusal>
        ensures { MatchResult result (λ m. shown_machine m ≡ seen (state_of self.now.store) machine.now) (λ r. r ≡ NoMemory) }
    {
        Ok(ShownMachine {
            number: machine.number(),
            highest: self.store.highest_number(machine.number()),
            on_list: self.store.is_listed(machine.number()),
            makes: shown_day(self.heap, machine)?,
        })
    }
}

// The name of a day, where a machine may have the number.
fn day_name(machine: u32, number: u32) -> Result<DayName, Refusal>
    ensures { MatchResult result (λ d. (machine < 256) × (d ≡ record { machine = machine; number = number })) (λ r. (256 ≤ machine) × (r ≡ Unknown)) }
{
    let Ok(machine) = u8::try_from(machine) else {
        return Err(Refusal::Unknown);
    };
    Ok(DayName { machine, number })
}

// The names of the pieces of these files, in their order.
fn names(heap: Global, files: &[FileEntry]) -> Result<Vec<Digest>, Refusal>
    ensures { MatchResult result (λ v. v.items ≡ names_of (map entry_of files.now)) (λ r. r ≡ NoMemory) }
{
    let mut names = Vec::new(heap);
    for file in files {
        names.extend_from_slice(&file.pieces)?;
    }
    Ok(names)
}

// The day that a machine makes, as it is shown.
fn shown_day(heap: Global, machine: &Machine) -> Result<Option<ShownDay>, Refusal>
    ensures { MatchResult result (λ d. option_map shown_day d ≡ option_map made (makes machine.now)) (λ r. r ≡ NoMemory) }
{
    let Some(day) = machine.day() else {
        return Ok(None);
    };
    Ok(Some(ShownDay {
        number: day.number(),
        pieces: names(heap, day.files())?,
    }))
}

// A day of the store, as it is shown.
fn kept_day(heap: Global, day: &ListedDay) -> Result<KeptDay, Refusal>
    ensures { MatchResult result (ShowsDay day.now) (λ r. r ≡ NoMemory) }
{
    let name = day.name;
    match read_names(heap, name, &day.file) {
        Ok(pieces) => Ok(KeptDay {
            name,
            pieces: Some(pieces),
        }),
        Err(Refusal::BadDay) => Ok(KeptDay { name, pieces: None }),
        Err(refusal) => Err(refusal),
    }
}

// All of them.
fn kept_days(heap: Global, days: &[ListedDay]) -> Result<Vec<KeptDay>, Refusal>
    ensures { MatchResult result (λ v. ShowsKept days.now v.items) (λ r. r ≡ NoMemory) }
{
    let mut shown = Vec::new(heap);
    for day in days {
        shown.push(kept_day(heap, day)?)?;
    }
    Ok(shown)
}

// The names of a set, in their order.
fn listed(heap: Global, names: &BTreeSet<Digest>) -> Result<Vec<Digest>, Refusal>
    ensures { MatchResult result (λ found. vec_items found ≡ names.now.keys) (λ r. r ≡ NoMemory) }
{
    Ok(names.iter().copied().collect(heap)?)
}

// What the sweeper does, as it is shown.
fn shown_sweeper(heap: Global, sweeper: &Sweeper) -> Result<ShownSweeper, Refusal>
    ensures { MatchResult result (ShowsSweeper (sweeping sweeper.now)) (λ r. r ≡ NoMemory) }
{
    match sweeper.activity() {
        Activity::Rests => Ok(ShownSweeper::Rests),
        Activity::PutsAside(left) => Ok(ShownSweeper::PutsAside(listed(heap, left)?)),
        Activity::Waits(noted) => Ok(ShownSweeper::Waits([
            noted_number(noted, 0),
            noted_number(noted, 1),
            noted_number(noted, 2),
            noted_number(noted, 3),
        ])),
        Activity::Ends(turns) => Ok(ShownSweeper::Ends(
            listed(heap, &turns.back)?,
            listed(heap, &turns.away)?,
        )),
        Activity::DecidesAnew => Ok(ShownSweeper::DecidesAnew),
    }
}
