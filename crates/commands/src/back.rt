// Has a file of a day back.
use crate::asked::Place;
use crate::opening::{OpenStore, refused};
use crate::program::Program;
use crate::trouble::{Trouble, What, Why};
use cutting::Refusal;
use folder::write_whole;
use store::{DayName, Store};

const PROGRAM: Program = Program::Back;

// The name of a day that is there.
fn there(store: &mut OpenStore, place: Place) -> Result<DayName, Refusal> {
    let day = place.day()?;
    if store.read_day(day)?.is_none() {
        return Err(Refusal::Unknown);
    }
    Ok(day)
}

// Can a path be that of a file?
fn names_file(path: &str) -> bool {
    let last = match path.rsplit_once('/') {
        Some((_, last)) => last,
        None => path,
    };
    !matches!(last, "" | "." | "..")
}

pub fn back(
    rt: &HostRuntime,
    store: &mut OpenStore,
    place: Place,
    path: &str,
    to: &str,
) -> Result<(), Trouble> {
    let day = match there(store, place) {
        Ok(day) => day,
        Err(refusal) => return Err(refused(rt, PROGRAM, store, refusal, What::Day(place))),
    };
    let bytes = match days::back(rt.alloc(), store, day, path.as_bytes()) {
        Ok(bytes) => bytes,
        Err(refusal) => {
            let what = What::Path(String::from_str(rt.alloc(), path)?, place);
            return Err(refused(rt, PROGRAM, store, refusal, what));
        }
    };
    if !names_file(to) {
        let word = String::from_str(rt.alloc(), to)?;
        let why = Why::Words("it names no file");
        return Err(Trouble::new(What::Word(word), why, "name the file to write"));
    }
    if let Err(failure) = write_whole(rt, to, &bytes) {
        return Err(Trouble::failed(rt.alloc(), &failure));
    }
    println!(rt; "{} {to}", bytes.len()).map_err(Trouble::output)
}
