// The store that a program works on.
use crate::program::Program;
use crate::trouble::{Trouble, What, Why, concerned};
use crate::watched::Watched;
use cutting::Refusal;
use folder::Folder;
use std::env;
use std::env::VarError;

const VARIABLE: &str = "ZELTUVA_STORE";

pub type OpenStore = Watched<Folder>;

fn no_folder(words: &'static str) -> Trouble {
    Trouble::new(
        What::Store,
        Why::Words(words),
        "name its folder by --store FOLDER, or in the environment variable ZELTUVA_STORE",
    )
}

// The folder of the store: the one that is named, or that in the environment.
pub fn store_folder(rt: &HostRuntime, named: Option<&str>) -> Result<String, Trouble> {
    if let Some(folder) = named {
        return Ok(String::from_str(rt.alloc(), folder)?);
    }
    match env::var(rt, VARIABLE) {
        Ok(folder) if !folder.is_empty() => Ok(folder),
        Ok(_) | Err(VarError::NotPresent) => Err(no_folder("no folder is named")),
        Err(VarError::NotUnicode) => Err(no_folder("ZELTUVA_STORE is not UTF-8")),
        Err(VarError::OutOfMemory) => Err(Trouble::refused(
            Program::Day,
            Refusal::NoMemory,
            What::Memory,
        )),
    }
}

pub fn open(rt: &HostRuntime, named: Option<&str>) -> Result<OpenStore, Trouble> {
    let root = store_folder(rt, named)?;
    match Folder::open(rt, root) {
        Ok(store) => Ok(Watched::new(store)),
        Err(failure) => Err(Trouble::failed(rt.alloc(), &failure)),
    }
}

// Why a program that works on a store is refused, and what that concerns, if nothing else does.
pub fn refused(
    rt: &HostRuntime,
    program: Program,
    store: &OpenStore,
    refusal: Refusal,
    what: What,
) -> Trouble {
    if let (Refusal::ReadOrWrite, Some(failure)) = (refusal, store.store.failure()) {
        return Trouble::failed(rt.alloc(), failure);
    }
    Trouble::refused(program, refusal, concerned(refusal, store.last, what))
}
