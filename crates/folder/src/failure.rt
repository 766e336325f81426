// Why something could not be done with a file, in words.
use layout::MachinesFault;
use std::alloc::{AllocError, AllocFailed, Global};
use std::io::ErrorKind;
use std::{fmt, io};

// What is the matter with a file.
#[derive(Drop)]
pub enum Why {
    // the system says so
    System(io::Error),
    // a part of a store is not there, or is something else
    Missing,
    NotAFolder,
    NotAFile,
    // its bytes are not of the form of a number, or of what the sweeper does
    DamagedNumber,
    DamagedSweep,
    // a list of names is longer than any that a program writes
    ListTooLong,
    Machines(MachinesFault),
    // there is a list of machines already
    IsStore,
    // another program writes there
    Busy,
    // what was written is gone before it had its name
    TakenAway,
}

#[derive(Drop)]
pub enum Failure {
    NoMemory,
    // the path of a file, and what is the matter with it
    File(String, Why),
}

impl From<AllocError> for Failure {
    fn from(_e: AllocError) -> Failure {
        Failure::NoMemory
    }
}

impl<T: Drop> From<AllocFailed<T>> for Failure {
    fn from(_e: AllocFailed<T>) -> Failure {
        Failure::NoMemory
    }
}

impl Failure {
    pub fn new(heap: Global, path: &str, why: Why) -> Failure {
        match String::from_str(heap, path) {
            Ok(file) => Failure::File(file, why),
            Err(_) => Failure::NoMemory,
        }
    }
}

// What the system answered for a file.
pub(crate) fn checked<T>(heap: Global, path: &str, found: io::Result<T>) -> Result<T, Failure> {
    match found {
        Ok(value) => Ok(value),
        Err(error) => Err(Failure::new(heap, path, Why::System(error))),
    }
}

// What to do where the system refuses something.
fn advice(kind: ErrorKind) -> &'static str {
    match kind {
        ErrorKind::NotFound => "look whether the path is right",
        ErrorKind::PermissionDenied => "see to it that you may read and write there",
        ErrorKind::ReadOnlyFilesystem => "make the disk writable",
        ErrorKind::StorageFull | ErrorKind::QuotaExceeded => {
            "make room on the disk, and run it again"
        }
        ErrorKind::IsADirectory | ErrorKind::NotADirectory => "give another path",
        ErrorKind::InvalidFilename => "give a shorter name",
        _ => "look after the disk, and run it again",
    }
}

impl fmt::Display for Why {
    fn fmt<W: fmt::Write>(&self, f: &mut fmt::Formatter<W>) -> fmt::Result {
        match self {
            Why::System(error) => write!(f, "{error}; {}", advice(error.kind())),
            Why::Missing => {
                write!(
                    f,
                    "it is not there, but a store has it; look whether its disk is there, or restore it; only where there never was a store, make one with init"
                )
            }
            Why::NotAFolder => {
                write!(
                    f,
                    "it is no folder, but has to be one in a store; give the folder of a store"
                )
            }
            Why::NotAFile => {
                write!(
                    f,
                    "it is no file, but has to be one in a store; take it away"
                )
            }
            Why::DamagedNumber => {
                write!(
                    f,
                    "it is damaged; write a number above all days of the machine, as docs/FOLDER.md says"
                )
            }
            Why::DamagedSweep => {
                write!(f, "it is damaged; remove it, and the sweeper begins anew")
            }
            Why::ListTooLong => {
                write!(
                    f,
                    "it is too long for a list of names; take away what does not belong there"
                )
            }
            Why::Machines(fault) => write!(f, "{fault}; mend the list of machines"),
            Why::TakenAway => { write!(f, "another program took it away; run this again") }
            Why::Busy => {
                write!(
                    f,
                    "another program is writing there; run this again when that has ended"
                )
            }
            Why::IsStore => { write!(f, "it is a store already; use it, or give another folder") }
        }
    }
}

impl fmt::Display for Failure {
    fn fmt<W: fmt::Write>(&self, f: &mut fmt::Formatter<W>) -> fmt::Result {
        match self {
            Failure::NoMemory => {
                write!(
                    f,
                    "there is not enough memory; end other programs, and run it again"
                )
            }
            Failure::File(file, why) => write!(f, "{file}: {why}"),
        }
    }
}
