// A list of names, as one program has it that adds to it.
use crate::disk::Disk;
use crate::failure::{Failure, Why};
use digest::Digest;
use layout::names_in;
use std::collections::BTreeSet;

// A list is read up to so many bytes: twice what all lists together may have.
const MOST_IN_LIST: u64 = 16_777_216;

#[derive(Drop)]
pub(crate) struct List {
    path: String,
    names: BTreeSet<Digest>,
    // these are in no file yet
    pending: Vec<Digest>,
    // whether what the file had, and that it has a name, is known to be durable
    synced: bool,
}

// The names of a list in a file.
pub(crate) fn read_names(disk: &Disk, path: &str) -> Result<Vec<Digest>, Failure> {
    match disk.read(path, MOST_IN_LIST + 1)? {
        Some(bytes) if bytes.len() as u64 > MOST_IN_LIST => {
            Err(Failure::new(disk.heap, path, Why::ListTooLong))
        }
        Some(bytes) => Ok(names_in(disk.heap, &bytes)?),
        None => Ok(Vec::new(disk.heap)),
    }
}

impl List {
    pub(crate) fn read(disk: &Disk, path: String) -> Result<List, Failure> {
        let mut names = BTreeSet::new(disk.heap);
        for name in read_names(disk, &path)? {
            names.insert(name)?;
        }
        Ok(List {
            path,
            names,
            pending: Vec::new(disk.heap),
            synced: false,
        })
    }

    pub(crate) fn has(&self, name: Digest) -> bool {
        self.names.contains(&name)
    }

    pub(crate) fn pending(&self) -> usize {
        self.pending.len()
    }

    // Adds a name, which is in no file before `flush`.
    pub(crate) fn add(&mut self, name: Digest) -> Result<(), Failure> {
        self.pending.push(name)?;
        self.names.insert(name)?;
        Ok(())
    }

    // Writes all names that are in no file yet. All names of the list are durable then, also those that another run wrote and did not sync before it stopped.
    pub(crate) fn flush(&mut self, disk: &Disk, folder: &str) -> Result<(), Failure> {
        if self.pending.is_empty() && (self.synced || !disk.is_there(&self.path)?) {
            return Ok(());
        }
        if self.pending.is_empty() {
            disk.sync(&self.path)?;
        } else {
            self.write(disk)?;
        }
        if !self.synced {
            disk.sync(folder)?;
            self.synced = true;
        }
        Ok(())
    }

    fn write(&mut self, disk: &Disk) -> Result<(), Failure> {
        let mut bytes = Vec::new(disk.heap);
        for name in &self.pending {
            bytes.extend_from_slice(name.as_bytes())?;
        }
        disk.append(&self.path, &bytes)?;
        self.pending.clear();
        Ok(())
    }
}
