// A file outside of the store, written whole or not at all.
use crate::disk::Disk;
use crate::failure::{Failure, Why, checked};
use std::fs::{File, TryLockError};

// The name under which a file is written, in the folder where it is to be.
const WRITING: &str = ".zeltuva-back";

// The folder of a path, and what is behind it; the folder that the program is run in where there is none.
fn parent(path: &str) -> &str {
    match path.rsplit_once('/') {
        Some(("", _)) => "/",
        Some((folder, _)) => folder,
        None => ".",
    }
}

impl Disk {
    // Makes a folder and those above it, where they are not there. All are durable then, also those that a program made that was stopped before it synced them.
    fn make_folders(&self, path: &str) -> Result<(), Failure> {
        for (at, byte) in path.as_bytes().iter().enumerate() {
            if *byte == b'/' && at > 0 {
                if let Some(above) = path.get(..at) {
                    self.make_folder(above)?;
                }
            }
        }
        self.make_folder(path)
    }

    fn make_folder(&self, path: &str) -> Result<(), Failure> {
        if self.is_there(path)? {
            return self.sync_if_open(parent(path));
        }
        self.new_folder(path)?;
        self.sync(parent(path))
    }

    // Holds the folder in which a file is to be written: two programs that wrote there at once would take each other's file.
    fn hold(&self, folder: &str) -> Result<File, Failure> {
        let held = checked(self.heap, folder, File::open(&self.rt, folder))?;
        match held.try_lock() {
            Err(TryLockError::WouldBlock) => Err(Failure::new(self.heap, folder, Why::Busy)),
            // where there are no locks, it goes on without
            _ => Ok(held),
        }
    }

    // Writes under the other name, and then gives the file its own.
    fn write_named(&self, writing: &str, path: &str, bytes: &[u8]) -> Result<(), Failure> {
        self.write_new(writing, bytes)?;
        match self.rename(writing, path) {
            Ok(true) => self.sync(parent(path)),
            Ok(false) => Err(Failure::new(self.heap, writing, Why::TakenAway)),
            Err(failure) => {
                // what failed is told; that this fails, too, would not help
                let _ = self.remove(writing);
                Err(failure)
            }
        }
    }
}

// Writes a file whole or not at all, with the folders that it is to be in. A file of that name before is replaced.
pub fn write_whole(rt: &HostRuntime, path: &str, bytes: &[u8]) -> Result<(), Failure> {
    let disk = Disk::new(rt)?;
    let folder = parent(path);
    disk.make_folders(folder)?;
    let writing = format!(in disk.heap; "{folder}/{WRITING}")?;
    let _held = disk.hold(folder)?;
    disk.write_named(&writing, path, bytes)
}
