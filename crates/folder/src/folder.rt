// A store in a folder.
ghost use Rattle.std.specs.Prelude.{◌≡◌, true, Some, None, Ok, Err, MatchResult};
ghost use Rattle.std.specs.Option.{option_map};
ghost use Rattle.folder.specs.Answers.{answered, remembered, with_piece};

use crate::disk::Disk;
use crate::failure::{Failure, Why, checked};
use crate::list::List;
use cutting::Refusal;
use layout::{days_folder, lock_path, writing_path};
use std::fs::{File, OpenOptions, TryLockError};
use store::MACHINES;

// How many pieces were written, and how many bytes they have.
#[derive(Clone, Copy, Debug, PartialEq, Eq)]
pub struct Written {
    pub pieces: u64,
    pub bytes: u64,
}

#[derive(Drop)]
pub struct Folder {
    pub(crate) disk: Disk,
    pub(crate) root: String,
    // the machine as which it writes; none: the sweeper
    pub(crate) writer: Option<u8>,
    lock: Option<File>,
    // the lists that it has added to
    pub(crate) list: Option<(u8, List)>,
    pub(crate) own: Option<List>,
    // how many names all lists had when the pending ones were begun
    pub(crate) listed: u64,
    written: Written,
    // whether it tells how many pieces were read, and how many were
    tells: bool,
    read: u64,
    failure: Option<Failure>,
}

// Folders of a store, beside those of the days of each machine.
pub(crate) const FOLDERS: [&str; 6] = ["p", "a", "i", "m", "d", "t"];

// With so many pieces read it tells so.
const EACH: u64 = 1000;

impl Folder {
    // The store in this folder. One that lacks a part is refused: what is in there might only be out of reach.
    pub fn open(rt: &HostRuntime, root: String) -> Result<Folder, Failure> {
        let disk = Disk::new(rt)?;
        let folder = Folder {
            disk,
            root,
            writer: None,
            lock: None,
            list: None,
            own: None,
            listed: 0,
            written: Written {
                pieces: 0,
                bytes: 0,
            },
            tells: false,
            read: 0,
            failure: None,
        };
        folder.check()?;
        Ok(folder)
    }

    // Is each part of the store there?
    fn check(&self) -> Result<(), Failure> {
        self.disk.check_folder(&self.root)?;
        self.check_machines()?;
        for name in FOLDERS {
            self.disk.check_folder(&self.path(name)?)?;
        }
        for machine in 0..MACHINES {
            let days = days_folder(self.disk.heap, machine)?;
            self.disk.check_folder(&self.path(&days)?)?;
        }
        Ok(())
    }

    // Whether its lines are right is of no concern to those who only want something back.
    fn check_machines(&self) -> Result<(), Failure> {
        let path = self.path(layout::MACHINES_FILE)?;
        if self.disk.length(&path)?.is_none() {
            return Err(Failure::new(self.disk.heap, &path, Why::Missing));
        }
        Ok(())
    }

    // The path of a file of the store.
    pub(crate) fn path(&self, name: &str) -> Result<String, Failure> {
        Ok(format!(in self.disk.heap; "{}/{name}", self.root)?)
    }

    // From now on it writes as this machine, unless another program does.
    pub fn lock_machine(&mut self, machine: u8) -> Result<(), Refusal>
        ensures { self.new.writer ≡ Some machine }
    {
        self.writer = Some(machine);
        let free = self.take_lock();
        if self.settle(free)? {
            Ok(())
        } else {
            Err(Refusal::MakesDay)
        }
    }

    // From now on it works as the sweeper, unless another program does.
    pub fn lock_sweeper(&mut self) -> Result<(), Refusal>
        ensures { self.new.writer ≡ None }
    {
        self.writer = None;
        let free = self.take_lock();
        if self.settle(free)? {
            Ok(())
        } else {
            Err(Refusal::NotAtThatPoint)
        }
    }

    // Whether no other program had the lock. Where there are no locks, it goes on without.
    fn take_lock(&mut self) -> Result<bool, Failure>
        ensures { self.new.writer ≡ self.old.writer }
    {
        let path = self.path(&lock_path(self.disk.heap, self.writer)?)?;
        let mut options = OpenOptions::new();
        options.write(true).create(true);
        let file = checked(self.disk.heap, &path, options.open(&self.disk.rt, &path))?;
        let locked = file.try_lock();
        self.lock = Some(file);
        Ok(!matches!(locked, Err(TryLockError::WouldBlock)))
    }

    // From now on it tells on standard error how many pieces it has read.
    pub fn tell(&mut self)
        ensures { self.new.tells ≡ true }
    {
        self.tells = true;
    }

    pub(crate) fn count_read(&mut self) {
        self.read = self.read.saturating_add(1);
        if self.tells && self.read % EACH == 0 {
            let _ = eprintln!(self.disk.rt; "{} pieces read", self.read);
        }
    }

    pub(crate) fn count_written(&mut self, bytes: usize)
        ensures { self.new.written ≡ with_piece bytes self.old.written }
    {
        self.written.pieces = self.written.pieces.saturating_add(1);
        self.written.bytes = self.written.bytes.saturating_add(bytes as u64);
    }

    pub fn written(&self) -> Written
        ensures { result ≡ self.now.written }
    {
        self.written
    }

    // What the last request failed by that was answered by `ReadOrWrite`.
    pub fn failure(&self) -> Option<&Failure>
        ensures { option_map (λ f. f.now) result ≡ self.now.failure }
    {
        self.failure.as_ref()
    }

    // The answer to a request, for what came of it.
    pub(crate) fn settle<T>(&mut self, found: Result<T, Failure>) -> Result<T, Refusal>
        ensures answer { MatchResult found (λ v. result ≡ Ok v) (λ e. result ≡ Err (answered e)) }
        ensures remembers { MatchResult found (λ _. self.new.failure ≡ self.old.failure) (λ e. self.new.failure ≡ remembered self.old.failure e) }
        ensures writer { self.new.writer ≡ self.old.writer }
    {
        match found {
            Ok(value) => Ok(value),
            Err(Failure::NoMemory) => Err(Refusal::NoMemory),
            Err(failure) => {
                self.failure = Some(failure);
                Err(Refusal::ReadOrWrite)
            }
        }
    }

    // Where something is missing: is its folder there at least?
    pub(crate) fn check_part(&self, folder: &str) -> Result<(), Failure> {
        self.disk.check_folder(&self.path(folder)?)
    }

    pub(crate) fn sync(&self, folder: &str) -> Result<(), Failure> {
        self.disk.sync(&self.path(folder)?)
    }

    // Writes a file under the name of what is being written, and answers that name.
    pub(crate) fn write_first(&self, bytes: &[u8]) -> Result<String, Failure> {
        let path = self.path(&writing_path(self.disk.heap, self.writer)?)?;
        self.disk.write_new(&path, bytes)?;
        Ok(path)
    }

    // All that was changed is durable then.
    pub fn finish(&mut self) -> Result<(), Refusal> {
        let done = self.sync_pieces();
        self.settle(done)
    }

    pub(crate) fn sync_pieces(&self) -> Result<(), Failure> {
        self.sync("p")?;
        self.sync("a")
    }

    pub(crate) fn sync_days(&self) -> Result<(), Failure> {
        for machine in 0..MACHINES {
            self.sync(&days_folder(self.disk.heap, machine)?)?;
        }
        Ok(())
    }

    // That there is a store is durable then: whoever made it may have stopped before that.
    pub(crate) fn sync_store(&self) -> Result<(), Failure> {
        self.sync_root()?;
        self.disk.sync_if_open(&self.path("..")?)
    }

    pub(crate) fn sync_root(&self) -> Result<(), Failure> {
        self.disk.sync(&self.root)
    }

    // The machines on the list.
    pub(crate) fn read_machines(&self) -> Result<Vec<u8>, Failure> {
        let heap = self.disk.heap;
        let path = self.path(layout::MACHINES_FILE)?;
        let Some(text) = self.disk.read(&path, MOST_IN_MACHINES + 1)? else {
            return Err(Failure::new(heap, &path, Why::Missing));
        };
        if text.len() as u64 > MOST_IN_MACHINES {
            return Err(Failure::new(heap, &path, Why::ListTooLong));
        }
        match layout::read_machines(heap, &text) {
            Ok(machines) => Ok(machines),
            Err(fault) => Err(Failure::new(heap, &path, Why::Machines(fault))),
        }
    }
}

// A list of machines has at most so many bytes.
const MOST_IN_MACHINES: u64 = 65_536;
