// The store in memory.
use crate::day::DayName;
use crate::listing::Listing;
use crate::piece::Spot;
use crate::requests::Store;
use crate::sweep::Sweep;
use cutting::Refusal;
use digest::Digest;
use std::alloc::Global;
use std::collections::{BTreeMap, BTreeSet};

// All lists together have at most so many names.
const MOST_NAMES: usize = 262_144;

// What lies under a name.
#[derive(Drop)]
pub struct Copies {
    pub(crate) place: Option<Vec<u8>>,
    pub(crate) aside: Option<Vec<u8>>,
}

// Maps are trees, so that a request takes about as long as the logarithm of what is there, and what it copies.
#[derive(Drop)]
pub struct Memory {
    pub(crate) heap: Global,
    pub(crate) pieces: BTreeMap<Digest, Copies>,
    pub(crate) listed: BTreeSet<Listing>,
    // the sweeper's list
    pub(crate) own: BTreeSet<Digest>,
    // what lies under the names of days
    pub(crate) days: BTreeMap<DayName, Vec<u8>>,
    highest: BTreeMap<u8, u32>,
    machines: BTreeSet<u8>,
    sweep: Sweep,
}

impl Store for Memory {
    ghost use Rattle.store.specs.Effects.{Does};
    ghost use Rattle.store.specs.Memories.{state_of};

    ghost does = { λ s q a t. Does (state_of s) q a (state_of t) };

    fn has_machine(&mut self, machine: u8) -> Result<bool, Refusal> {
        Ok(self.machines.contains(&machine))
    }

    fn read(&mut self, spot: Spot, name: Digest) -> Result<Option<Vec<u8>>, Refusal> {
        match self.lying(spot, name) {
            Some(bytes) => Ok(Some(Vec::from_slice(self.heap, bytes)?)),
            None => Ok(None),
        }
    }

    fn enlist(&mut self, listing: Listing) -> Result<(), Refusal> {
        if self.listed.contains(&listing) {
            return Ok(());
        }
        self.check_room()?;
        self.listed.insert(listing)?;
        Ok(())
    }

    fn write(&mut self, name: Digest, piece: &[u8]) -> Result<(), Refusal> {
        let bytes = Vec::from_slice(self.heap, piece)?;
        if let Some(copies) = self.pieces.get_mut(&name) {
            copies.place = Some(bytes);
            return Ok(());
        }
        let copies = Copies {
            place: Some(bytes),
            aside: None,
        };
        self.pieces.insert(name, copies)?;
        Ok(())
    }

    fn put_aside(&mut self, name: Digest) -> Result<bool, Refusal> {
        let Some(copies) = self.pieces.get_mut(&name) else {
            return Ok(false);
        };
        let Some(bytes) = copies.place.take() else {
            return Ok(false);
        };
        copies.aside = Some(bytes);
        Ok(true)
    }

    fn put_back(&mut self, name: Digest) -> Result<bool, Refusal> {
        let Some(copies) = self.pieces.get_mut(&name) else {
            return Ok(false);
        };
        let Some(bytes) = copies.aside.take() else {
            return Ok(false);
        };
        copies.place = Some(bytes);
        Ok(true)
    }

    fn throw_away(&mut self, name: Digest) -> Result<bool, Refusal> {
        let Some(copies) = self.pieces.get_mut(&name) else {
            return Ok(false);
        };
        let thrown = copies.aside.take().is_some();
        if copies.place.is_none() {
            self.pieces.remove(&name);
        }
        Ok(thrown)
    }

    fn highest(&mut self, machine: u8) -> Result<u32, Refusal> {
        Ok(self.highest_number(machine))
    }

    fn raise(&mut self, machine: u8, number: u32) -> Result<(), Refusal> {
        self.highest.insert(machine, number)?;
        Ok(())
    }

    fn name_day(&mut self, day: DayName, file: &[u8]) -> Result<(), Refusal> {
        if self.days.contains_key(&day) {
            return Err(Refusal::DayIsThere);
        }
        self.days.insert(day, Vec::from_slice(self.heap, file)?)?;
        Ok(())
    }

    fn let_go(&mut self, day: DayName) -> Result<(), Refusal> {
        let Some(_file) = self.days.remove(&day) else {
            return Err(Refusal::Unknown);
        };
        Ok(())
    }

    fn names_of(&mut self, machine: u8) -> Result<Vec<Digest>, Refusal> {
        let mut names = Vec::new(self.heap);
        for listing in self.listed.iter() {
            if listing.machine == machine {
                names.push(listing.name)?;
            }
        }
        Ok(names)
    }

    fn own_names(&mut self) -> Result<Vec<Digest>, Refusal> {
        Ok(self.own_list()?)
    }

    fn enlist_own(&mut self, name: Digest) -> Result<(), Refusal> {
        if self.own.contains(&name) {
            return Ok(());
        }
        self.check_room()?;
        self.own.insert(name)?;
        Ok(())
    }

    fn read_day(&mut self, day: DayName) -> Result<Option<Vec<u8>>, Refusal> {
        match self.days.get(&day) {
            Some(file) => Ok(Some(Vec::from_slice(self.heap, file)?)),
            None => Ok(None),
        }
    }

    fn kept(&mut self) -> Result<Sweep, Refusal> {
        Ok(self.sweep)
    }

    fn keep(&mut self, sweep: Sweep) -> Result<(), Refusal> {
        self.sweep = sweep;
        Ok(())
    }
}

impl Memory {
    ghost use Rattle.std.specs.Prelude.{◌≡◌, ◌<◌, ◌≤◌, true, false, IfOk, IfErr, MatchResult};
    ghost use Rattle.std.specs.Option.{option_map};
    ghost use Rattle.cutting.specs.declared.refusal.Refusal.TheVariants.{NoMemory, TooManyNames, Unknown};
    ghost use Rattle.store.specs.Effects.{lies, without_machine};
    ghost use Rattle.store.specs.Memories.{state_of};
    ghost use Rattle.store.specs.State.{empty, most_names};

    // What lies there under a name.
    fn lying(&self, spot: Spot, name: Digest) -> Option<&Vec<u8>>
        ensures { option_map (λ v. v.now.items) result ≡ lies spot (state_of self.now) name }
    {
        let copies = self.pieces.get(&name)?;
        match spot {
            Spot::Place => copies.place.as_ref(),
            Spot::Aside => copies.aside.as_ref(),
        }
    }

    // Is there room for a name more in the lists?
    fn check_room(&self) -> Result<(), Refusal>
        ensures { MatchResult result (λ _. (state_of self.now).names < most_names) (λ r. (most_names ≤ (state_of self.now).names) × (r ≡ TooManyNames)) }
    {
        if self.listed.len().saturating_add(self.own.len()) >= MOST_NAMES {
            return Err(Refusal::TooManyNames);
        }
        Ok(())
    }

    // Takes a machine off the list of machines, for good. A person does so.
    pub fn take_off(&mut self, machine: u8) -> Result<(), Refusal>
        ensures done { IfOk result (λ _. ((state_of self.old).machines machine ≡ true) × (state_of self.new ≡ without_machine machine (state_of self.old))) }
        ensures refused { IfErr result (λ r. (r ≡ Unknown) × ((state_of self.old).machines machine ≡ false) × (self.new ≡ self.old)) }
    {
        if self.machines.remove(&machine) {
            Ok(())
        } else {
            Err(Refusal::Unknown)
        }
    }

    // Is this machine on the list?
    pub fn is_listed(&self, machine: u8) -> bool
        ensures { result ≡ (state_of self.now).machines machine }
    {
        self.machines.contains(&machine)
    }

    // The highest number that a machine ever raised, or 0.
    pub fn highest_number(&self, machine: u8) -> u32
        ensures { result ≡ (state_of self.now).highest machine }
    {
        self.highest.get(&machine).copied().unwrap_or(0)
    }

    // An empty store with these machines on its list.
    pub fn new(heap: Global, machines: &[u8]) -> Result<Memory, Refusal>
        ensures { MatchResult result (λ m. state_of m ≡ empty machines.now) (λ r. r ≡ NoMemory) }
    {
        let mut listed = BTreeSet::new(heap);
        for machine in machines {
            listed.insert(*machine)?;
        }
        Ok(Memory {
            heap,
            pieces: BTreeMap::new(heap),
            listed: BTreeSet::new(heap),
            own: BTreeSet::new(heap),
            days: BTreeMap::new(heap),
            highest: BTreeMap::new(heap),
            machines: listed,
            sweep: Sweep::Rests,
        })
    }
}
