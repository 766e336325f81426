// The requests that a store answers, on files. docs/FOLDER.md says what each does, in which order, and why.
use crate::failure::{Failure, Why};
use crate::folder::Folder;
use crate::list::{List, read_names};
use cutting::Refusal;
use digest::Digest;
use layout::{
    day_path, days_folder, highest_path, list_path, number_file, piece_path, read_number,
    read_sweep, sweep_file, torn,
};
use store::{DayName, Listing, MACHINES, Spot, Store, Sweep};

// All lists together have at most so many names.
const MOST_NAMES: u64 = 262_144;

// A piece has at most 65,536 bytes. Of what is longer one byte more is read, so that it is of no name.
const MOST_IN_PIECE: u64 = 65_536;

// No day file is longer: a file of a day has at most 1 + 255 + 4 + 2 bytes and 65,535 names of 32.
const MOST_IN_DAY: u64 = 8 + 4_096 * (262 + 65_535 * 32) + 32;

// The folder of a spot.
fn folder_of(spot: Spot) -> &'static str {
    match spot {
        Spot::Place => "p",
        Spot::Aside => "a",
    }
}

impl Folder {
    fn path_of(&self, spot: Spot, name: Digest) -> Result<String, Failure> {
        self.path(&piece_path(self.disk.heap, spot, name)?)
    }

    fn read_piece(&self, spot: Spot, name: Digest) -> Result<Option<Vec<u8>>, Failure> {
        let bytes = self
            .disk
            .read(&self.path_of(spot, name)?, MOST_IN_PIECE + 1)?;
        if bytes.is_none() {
            self.check_part(folder_of(spot))?;
        }
        Ok(bytes)
    }

    // How many names all lists have.
    fn count_names(&self) -> Result<u64, Failure> {
        let mut bytes = self.whole_length(layout::OWN_LIST)?;
        for machine in 0..MACHINES {
            let length = self.whole_length(&list_path(self.disk.heap, machine)?)?;
            bytes = bytes.saturating_add(length);
        }
        Ok(bytes / 32)
    }

    // How long a list is up to its last whole name.
    fn whole_length(&self, list: &str) -> Result<u64, Failure> {
        let length = self.disk.length(&self.path(list)?)?.unwrap_or(0);
        Ok(length.saturating_sub(torn(length)))
    }

    // Is there room for one name more, behind those that are pending?
    fn check_room(&mut self, pending: usize) -> Result<bool, Failure> {
        if pending == 0 {
            self.listed = self.count_names()?;
        }
        Ok(self.listed.saturating_add(pending as u64) < MOST_NAMES)
    }

    // Adds a name to a list; false where there is no room.
    fn add_name(&mut self, list: &mut List, name: Digest) -> Result<bool, Failure> {
        if list.has(name) {
            return Ok(true);
        }
        if !self.check_room(list.pending())? {
            return Ok(false);
        }
        list.add(name)?;
        Ok(true)
    }

    // Takes out the list of a machine, for adding to it. It is put back where that goes well, and else read again.
    fn take_list(&mut self, machine: u8) -> Result<List, Failure> {
        if let Some((owner, list)) = self.list.take() {
            if owner == machine {
                return Ok(list);
            }
        }
        List::read(&self.disk, self.path(&list_path(self.disk.heap, machine)?)?)
    }

    fn add_listing(&mut self, listing: Listing) -> Result<bool, Failure> {
        let mut list = self.take_list(listing.machine)?;
        let added = self.add_name(&mut list, listing.name)?;
        self.list = Some((listing.machine, list));
        Ok(added)
    }

    // So with the sweeper's.
    fn take_own(&mut self) -> Result<List, Failure> {
        match self.own.take() {
            Some(list) => Ok(list),
            None => List::read(&self.disk, self.path(layout::OWN_LIST)?),
        }
    }

    fn add_own(&mut self, name: Digest) -> Result<bool, Failure> {
        let mut own = self.take_own()?;
        let added = self.add_name(&mut own, name)?;
        self.own = Some(own);
        Ok(added)
    }

    // Writes the names that were added to lists and are in no file yet.
    fn flush(&mut self) -> Result<(), Failure> {
        let folder = self.path("i")?;
        if let Some((_, list)) = &mut self.list {
            list.flush(&self.disk, &folder)?;
        }
        if let Some(own) = &mut self.own {
            own.flush(&self.disk, &folder)?;
        }
        Ok(())
    }

    fn write_piece(&mut self, name: Digest, piece: &[u8]) -> Result<(), Failure> {
        self.flush()?;
        let path = self.path_of(Spot::Place, name)?;
        let first = self.write_first(piece)?;
        self.rename(&first, &path)
    }

    // A file that was written is to have this name.
    fn rename(&self, from: &str, to: &str) -> Result<(), Failure> {
        if !self.disk.rename(from, to)? {
            return Err(Failure::new(self.disk.heap, from, Why::Missing));
        }
        Ok(())
    }

    // From one spot to the other; whether there was anything.
    fn move_piece(&mut self, name: Digest, from: Spot, to: Spot) -> Result<bool, Failure> {
        self.flush()?;
        let (old, new) = (self.path_of(from, name)?, self.path_of(to, name)?);
        if self.disk.rename(&old, &new)? {
            return Ok(true);
        }
        self.check_part(folder_of(from))?;
        self.check_part(folder_of(to))?;
        Ok(false)
    }

    fn remove_piece(&self, name: Digest) -> Result<bool, Failure> {
        if self.disk.remove(&self.path_of(Spot::Aside, name)?)? {
            return Ok(true);
        }
        self.check_part("a")?;
        Ok(false)
    }

    fn read_number(&self, machine: u8) -> Result<u32, Failure> {
        let heap = self.disk.heap;
        let path = self.path(&highest_path(heap, machine)?)?;
        let Some(bytes) = self.disk.read(&path, 37)? else {
            self.check_part("m")?;
            return Ok(0);
        };
        match read_number(&bytes) {
            Some(number) => Ok(number),
            None => Err(Failure::new(heap, &path, Why::DamagedNumber)),
        }
    }

    fn write_number(&self, machine: u8, number: u32) -> Result<(), Failure> {
        let path = self.path(&highest_path(self.disk.heap, machine)?)?;
        let first = self.write_first(&number_file(number))?;
        self.rename(&first, &path)?;
        self.sync("m")?;
        self.sync_store()
    }

    // Whether the name was free. All pieces of the day are durable before it has its name.
    fn give_day(&self, day: DayName, file: &[u8]) -> Result<bool, Failure> {
        let heap = self.disk.heap;
        self.sync_pieces()?;
        let path = self.path(&day_path(heap, day)?)?;
        let first = self.write_first(file)?;
        let free = self.disk.name_new(&first, &path)?;
        self.sync(&days_folder(heap, day.machine)?)?;
        self.disk.remove(&first)?;
        Ok(free)
    }

    fn remove_day(&self, day: DayName) -> Result<bool, Failure> {
        if day.machine >= MACHINES {
            return Ok(false);
        }
        let folder = days_folder(self.disk.heap, day.machine)?;
        let there = self
            .disk
            .remove(&self.path(&day_path(self.disk.heap, day)?)?)?;
        self.sync(&folder)?;
        Ok(there)
    }

    fn day_file(&self, day: DayName) -> Result<Option<Vec<u8>>, Failure> {
        if day.machine >= MACHINES {
            return Ok(None);
        }
        let heap = self.disk.heap;
        let file = self
            .disk
            .read(&self.path(&day_path(heap, day)?)?, MOST_IN_DAY + 1)?;
        if file.is_none() {
            self.check_part(&days_folder(heap, day.machine)?)?;
        }
        Ok(file)
    }

    fn list_names(&self, list: &str) -> Result<Vec<Digest>, Failure> {
        let names = read_names(&self.disk, &self.path(list)?)?;
        if names.is_empty() {
            self.check_part("i")?;
        }
        Ok(names)
    }

    fn machine_names(&self, machine: u8) -> Result<Vec<Digest>, Failure> {
        self.list_names(&list_path(self.disk.heap, machine)?)
    }

    // The folder is synced first: a sweeper that stopped may have left here what is not durable, and the next one goes by it.
    fn read_sweep(&self) -> Result<Sweep, Failure> {
        self.sync_root()?;
        let path = self.path(layout::SWEEP)?;
        let Some(bytes) = self.disk.read(&path, 290)? else {
            return Ok(Sweep::Rests);
        };
        match read_sweep(&bytes) {
            Some(sweep) => Ok(sweep),
            None => Err(Failure::new(self.disk.heap, &path, Why::DamagedSweep)),
        }
    }

    // All that was moved is durable before it is kept what the sweeper does now; so are the numbers that it has noted, and before it throws anything away that days were let go.
    fn write_sweep(&self, sweep: &Sweep) -> Result<(), Failure> {
        self.sync_pieces()?;
        match sweep {
            Sweep::Waits(_) => self.sync("m")?,
            Sweep::Ends => self.sync_days()?,
            Sweep::Rests => {}
        }
        let path = self.path(layout::SWEEP)?;
        let first = self.write_first(&sweep_file(self.disk.heap, sweep)?)?;
        self.rename(&first, &path)?;
        self.sync_root()
    }
}

impl Store for Folder {
    ghost use Rattle.std.specs.Prelude.{⊤};

    // What lies in files no contract can say.
    ghost does = { λ _ _ _ _. ⊤ };

    fn has_machine(&mut self, machine: u8) -> Result<bool, Refusal> {
        let machines = self.read_machines();
        Ok(self.settle(machines)?.contains(&machine))
    }

    fn read(&mut self, spot: Spot, name: Digest) -> Result<Option<Vec<u8>>, Refusal> {
        self.count_read();
        let bytes = self.read_piece(spot, name);
        self.settle(bytes)
    }

    fn enlist(&mut self, listing: Listing) -> Result<(), Refusal> {
        let added = self.add_listing(listing);
        if !self.settle(added)? {
            return Err(Refusal::TooManyNames);
        }
        Ok(())
    }

    fn write(&mut self, name: Digest, piece: &[u8]) -> Result<(), Refusal> {
        let written = self.write_piece(name, piece);
        self.settle(written)?;
        self.count_written(piece.len());
        Ok(())
    }

    fn put_aside(&mut self, name: Digest) -> Result<bool, Refusal> {
        let moved = self.move_piece(name, Spot::Place, Spot::Aside);
        self.settle(moved)
    }

    fn put_back(&mut self, name: Digest) -> Result<bool, Refusal> {
        let moved = self.move_piece(name, Spot::Aside, Spot::Place);
        self.settle(moved)
    }

    fn throw_away(&mut self, name: Digest) -> Result<bool, Refusal> {
        let thrown = self.remove_piece(name);
        self.settle(thrown)
    }

    fn highest(&mut self, machine: u8) -> Result<u32, Refusal> {
        let number = self.read_number(machine);
        self.settle(number)
    }

    fn raise(&mut self, machine: u8, number: u32) -> Result<(), Refusal> {
        let raised = self.write_number(machine, number);
        self.settle(raised)
    }

    fn name_day(&mut self, day: DayName, file: &[u8]) -> Result<(), Refusal> {
        let free = self.give_day(day, file);
        if !self.settle(free)? {
            return Err(Refusal::DayIsThere);
        }
        Ok(())
    }

    fn let_go(&mut self, day: DayName) -> Result<(), Refusal> {
        let there = self.remove_day(day);
        if !self.settle(there)? {
            return Err(Refusal::Unknown);
        }
        Ok(())
    }

    fn names_of(&mut self, machine: u8) -> Result<Vec<Digest>, Refusal> {
        let names = self.machine_names(machine);
        self.settle(names)
    }

    fn own_names(&mut self) -> Result<Vec<Digest>, Refusal> {
        let names = self.list_names(layout::OWN_LIST);
        self.settle(names)
    }

    fn enlist_own(&mut self, name: Digest) -> Result<(), Refusal> {
        let added = self.add_own(name);
        if !self.settle(added)? {
            return Err(Refusal::TooManyNames);
        }
        Ok(())
    }

    fn read_day(&mut self, day: DayName) -> Result<Option<Vec<u8>>, Refusal> {
        let file = self.day_file(day);
        self.settle(file)
    }

    fn kept(&mut self) -> Result<Sweep, Refusal> {
        let sweep = self.read_sweep();
        self.settle(sweep)
    }

    fn keep(&mut self, sweep: Sweep) -> Result<(), Refusal> {
        let kept = self.write_sweep(&sweep);
        self.settle(kept)
    }
}
