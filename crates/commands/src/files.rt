// The files of a day, read one after the other.
ghost use Rattle.std.specs.Prelude.{◌-◌, length};

use crate::program::Program;
use crate::trouble::{Trouble, What, Why};
use cutting::Refusal;
use days::{GivenFile, Source};
use std::alloc::Global;
use std::fs::File;
use std::io::Read;
use std::{fs, io};

// A file has at most so many bytes.
const MOST_IN_FILE: usize = 16_777_216;

// It is said after so many files how many were read.
const EACH: usize = 100;

// How much is read at a time.
const CHUNK: usize = 65_536;

// Why a file is not taken.
#[derive(Drop)]
pub enum Untaken {
    TooLong,
    // a folder, a symbolic link, a device
    NoFile,
    System(io::Error),
}

impl From<io::Error> for Untaken {
    fn from(error: io::Error) -> Untaken {
        Untaken::System(error)
    }
}

// Reads to the end, but no more than one chunk beyond so many bytes.
pub fn read_up_to<R: Read>(heap: Global, reader: &mut R, most: usize) -> io::Result<Vec<u8>> {
    let mut bytes = Vec::new(heap);
    let mut chunk = vec![in heap; 0; CHUNK]?;
    for _ in 0..u64::MAX {
        match reader.read(&mut chunk) {
            Ok(count) => {
                bytes.extend_from_slice(&chunk[..count])?;
                if count == 0 || bytes.len() > most {
                    break;
                }
            }
            Err(e) if e.kind() == io::ErrorKind::Interrupted => {}
            Err(e) => return Err(e),
        }
    }
    Ok(bytes)
}

// A file that may be in a day, opened.
fn open(rt: &HostRuntime, path: &str) -> Result<File, Untaken> {
    let found = fs::symlink_metadata(rt, path)?;
    if !found.is_file() {
        return Err(Untaken::NoFile);
    }
    if found.len() > MOST_IN_FILE as u64 {
        return Err(Untaken::TooLong);
    }
    Ok(fs::open(rt, path)?)
}

// Its bytes.
fn read(rt: &HostRuntime, path: &str) -> Result<Vec<u8>, Untaken> {
    let mut file = open(rt, path)?;
    let bytes = read_up_to(rt.alloc(), &mut file, MOST_IN_FILE)?;
    if bytes.len() > MOST_IN_FILE {
        return Err(Untaken::TooLong);
    }
    Ok(bytes)
}

// What is said of a file that is not taken.
fn told(rt: &HostRuntime, path: &str, untaken: Untaken) -> Trouble {
    let what = match String::from_str(rt.alloc(), path) {
        Ok(path) => What::File(path),
        Err(e) => return Trouble::from(e),
    };
    match untaken {
        Untaken::TooLong => Trouble::refused(Program::Day, Refusal::FileTooLong, what),
        Untaken::NoFile => Trouble::new(
            what,
            Why::Words("it is no file"),
            "take it off the list: folders, symbolic links and devices are in no day",
        ),
        Untaken::System(error) => Trouble::new(
            what,
            Why::System(error),
            "take it off the list, or see to it that it can be read",
        ),
    }
}

// Looks whether each file can be in a day.
pub fn look_at_all(rt: &HostRuntime, paths: &[&str]) -> Result<(), Trouble> {
    for path in paths {
        if let Err(untaken) = open(rt, path) {
            return Err(told(rt, path, untaken));
        }
    }
    Ok(())
}

// The files of a day that are still to be read.
#[derive(Drop)]
pub struct Files<'a> {
    rt: HostRuntime,
    paths: &'a [&'a str],
    // whether it says how many of them were read
    tells: bool,
    read: usize,
    // why the last one could not be read
    trouble: Option<Trouble>,
}

impl<'a> Files<'a> {
    pub fn new(rt: HostRuntime, paths: &'a [&'a str], tells: bool) -> Files<'a> {
        Files {
            rt,
            paths,
            tells,
            read: 0,
            trouble: None,
        }
    }

    // Says so after every hundredth and after the last one. If it cannot be said, the day is made all the same.
    fn tell(&self) {
        let all = self.paths.len();
        if self.tells && (self.read % EACH == 0 || self.read == all) {
            let _ = eprintln!(self.rt; "{} of {all} files read", self.read);
        }
    }

    // Why a file could not be read, if it was that.
    pub fn into_trouble(self) -> Option<Trouble> {
        self.trouble
    }
}

impl Source for Files<'_> {
    ghost gives = { λ _ _ _. Unit {0} };

    ghost left = { λ s. length s.paths.now - s.read };

    fn next(&mut self, heap: Global) -> Result<Option<GivenFile>, Refusal> {
        let Some(path) = self.paths.get(self.read) else {
            return Ok(None);
        };
        match read(&self.rt, path) {
            Ok(bytes) => {
                self.read += 1;
                self.tell();
                let path = Vec::from_slice(heap, path.as_bytes())?;
                Ok(Some(GivenFile { path, bytes }))
            }
            Err(untaken) => {
                self.trouble = Some(told(&self.rt, path, untaken));
                Err(Refusal::ReadOrWrite)
            }
        }
    }
}
