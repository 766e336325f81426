// Files and folders: what is read whole, and what is written so that no stop leaves a part of it.
use crate::failure::{Failure, Why, checked};
use layout::torn;
use std::alloc::Global;
use std::fs;
use std::fs::{File, OpenFile, OpenOptions};
use std::io::{ErrorKind, Read, Write};

#[derive(Drop)]
pub(crate) struct Disk {
    pub(crate) rt: HostRuntime,
    pub(crate) heap: Global,
}

impl Disk {
    pub(crate) fn new(rt: &HostRuntime) -> Result<Disk, Failure> {
        Ok(Disk {
            heap: rt.alloc(),
            rt: rt.clone()?,
        })
    }

    // Is there anything of this path?
    pub(crate) fn is_there(&self, path: &str) -> Result<bool, Failure> {
        match fs::symlink_metadata(&self.rt, path) {
            Ok(_) => Ok(true),
            Err(error) if error.kind() == ErrorKind::NotFound => Ok(false),
            Err(error) => Err(Failure::new(self.heap, path, Why::System(error))),
        }
    }

    // A part of a store that has to be a folder.
    pub(crate) fn check_folder(&self, path: &str) -> Result<(), Failure> {
        match fs::metadata(&self.rt, path) {
            Ok(found) if found.is_dir() => Ok(()),
            Ok(_) => Err(Failure::new(self.heap, path, Why::NotAFolder)),
            Err(error) if error.kind() == ErrorKind::NotFound => {
                Err(Failure::new(self.heap, path, Why::Missing))
            }
            Err(error) => Err(Failure::new(self.heap, path, Why::System(error))),
        }
    }

    // How many bytes a file has, or none where it is not there. A path of something else than a file is never opened: opening a pipe would wait for ever.
    pub(crate) fn length(&self, path: &str) -> Result<Option<u64>, Failure> {
        match fs::metadata(&self.rt, path) {
            Ok(found) if found.is_file() => Ok(Some(found.len())),
            Ok(_) => Err(Failure::new(self.heap, path, Why::NotAFile)),
            Err(error) if error.kind() == ErrorKind::NotFound => Ok(None),
            Err(error) => Err(Failure::new(self.heap, path, Why::System(error))),
        }
    }

    // The bytes of a file, but no more than so many; or none where it is not there.
    pub(crate) fn read(&self, path: &str, most: u64) -> Result<Option<Vec<u8>>, Failure> {
        if self.length(path)?.is_none() {
            return Ok(None);
        }
        match File::open(&self.rt, path) {
            Ok(file) => Ok(Some(self.read_open(path, file, most)?)),
            // it was moved away in between
            Err(error) if error.kind() == ErrorKind::NotFound => Ok(None),
            Err(error) => Err(Failure::new(self.heap, path, Why::System(error))),
        }
    }

    // The length is asked of the open file, since the path may be that of another by now.
    fn read_open(&self, path: &str, mut file: File, most: u64) -> Result<Vec<u8>, Failure> {
        let found = checked(self.heap, path, file.metadata())?;
        let length = usize::try_from(found.len().min(most)).unwrap_or(usize::MAX);
        let mut bytes = vec![in self.heap; 0; length]?;
        checked(self.heap, path, file.read_exact(&mut bytes))?;
        Ok(bytes)
    }

    // The names in a folder, or the bytes of a file, are durable then.
    pub(crate) fn sync(&self, path: &str) -> Result<(), Failure> {
        let opened = checked(self.heap, path, File::open(&self.rt, path))?;
        checked(self.heap, path, opened.sync_all())
    }

    // So with a folder that was there before and that this program may not even be allowed to open.
    pub(crate) fn sync_if_open(&self, path: &str) -> Result<(), Failure> {
        match File::open(&self.rt, path) {
            Ok(opened) => checked(self.heap, path, opened.sync_all()),
            Err(error) if error.kind() == ErrorKind::PermissionDenied => Ok(()),
            Err(error) => Err(Failure::new(self.heap, path, Why::System(error))),
        }
    }

    pub(crate) fn new_folder(&self, path: &str) -> Result<(), Failure> {
        checked(self.heap, path, fs::create_dir(&self.rt, path))
    }

    // Takes a path away; whether it was there.
    pub(crate) fn remove(&self, path: &str) -> Result<bool, Failure> {
        match fs::remove_file(&self.rt, path) {
            Ok(()) => Ok(true),
            Err(error) if error.kind() == ErrorKind::NotFound => Ok(false),
            Err(error) => Err(Failure::new(self.heap, path, Why::System(error))),
        }
    }

    // A new file of these bytes, which are durable then; its name is not. What has the name is removed, never written into: it may be a second name of another file.
    pub(crate) fn write_new(&self, path: &str, bytes: &[u8]) -> Result<(), Failure> {
        self.remove(path)?;
        let mut options = OpenOptions::new();
        options.write(true).create_new(true);
        let mut file = checked(self.heap, path, options.open(&self.rt, path))?;
        let filled = self.fill(path, &mut file, bytes);
        if filled.is_err() {
            // on a full disk it makes room; what failed is told, and that this fails, too, would not help
            let _ = self.remove(path);
        }
        filled
    }

    fn fill(&self, path: &str, file: &mut File, bytes: &[u8]) -> Result<(), Failure> {
        checked(self.heap, path, file.write_all(bytes))?;
        checked(self.heap, path, file.sync_all())
    }

    // Adds bytes at the end of a list of names, behind its last whole name, and makes them durable.
    pub(crate) fn append(&self, path: &str, bytes: &[u8]) -> Result<(), Failure> {
        let mut options = OpenOptions::new();
        options.append(true).create(true);
        let mut file = checked(self.heap, path, options.open(&self.rt, path))?;
        let length = checked(self.heap, path, file.metadata())?.len();
        let torn = torn(length);
        if torn > 0 {
            checked(self.heap, path, file.set_len(length.saturating_sub(torn)))?;
        }
        checked(self.heap, path, file.write_all(bytes))?;
        checked(self.heap, path, file.sync_all())
    }

    // Gives a file another name; whether it was there. What has that name is gone then.
    pub(crate) fn rename(&self, from: &str, to: &str) -> Result<bool, Failure> {
        match fs::rename(&self.rt, from, to) {
            Ok(()) => Ok(true),
            Err(error) if error.kind() == ErrorKind::NotFound => Ok(false),
            Err(error) => Err(Failure::new(self.heap, to, Why::System(error))),
        }
    }

    // Gives a file a name that nothing has; whether nothing had it. What is written under the other name is then there under this one alone.
    pub(crate) fn name_new(&self, from: &str, to: &str) -> Result<bool, Failure> {
        match fs::hard_link(&self.rt, from, to) {
            Ok(()) => Ok(true),
            Err(error) => match error.kind() {
                ErrorKind::AlreadyExists => Ok(false),
                // a file system without second names
                ErrorKind::Unsupported | ErrorKind::PermissionDenied => self.rename_new(from, to),
                _ => Err(Failure::new(self.heap, to, Why::System(error))),
            },
        }
    }

    // So by looking first, for a name that no two programs give at once.
    pub(crate) fn rename_new(&self, from: &str, to: &str) -> Result<bool, Failure> {
        if self.is_there(to)? {
            return Ok(false);
        }
        checked(self.heap, to, fs::rename(&self.rt, from, to))?;
        Ok(true)
    }
}
