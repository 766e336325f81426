// Lists the days there are, and the files of one.
use crate::asked::Place;
use crate::opening::{OpenStore, refused};
use crate::program::Program;
use crate::summary::Summary;
use crate::trouble::{Trouble, What, place_of};
use cutting::Refusal;
use dayfile::FileEntry;
use std::io;
use std::io::Write;
use store::{DayName, MACHINES, Store};

const PROGRAM: Program = Program::List;

// The files of a day, if there is one.
fn files_of(
    rt: &HostRuntime,
    store: &mut OpenStore,
    day: DayName,
) -> Result<Option<dayfile::Day>, Refusal> {
    match store.read_day(day)? {
        Some(bytes) => Ok(Some(dayfile::read(rt.alloc(), day, &bytes)?)),
        None => Ok(None),
    }
}

fn say_day(rt: &HostRuntime, day: DayName, files: &[FileEntry]) -> io::Result<()> {
    let has = Summary::of(files);
    println!(rt;
        "machine {} day {} files {} bytes {}",
        day.machine, day.number, has.files, has.bytes
    )
}

// Lists a day, if there is one. One that is damaged is remembered, if it is the first.
fn list_day(
    rt: &HostRuntime,
    store: &mut OpenStore,
    day: DayName,
    damaged: &mut Option<DayName>,
) -> Result<(), Trouble> {
    match files_of(rt, store, day) {
        Ok(Some(files)) => say_day(rt, day, files.files()).map_err(Trouble::output),
        Ok(None) => Ok(()),
        Err(Refusal::BadDay) => {
            if damaged.is_none() {
                *damaged = Some(day);
            }
            Ok(())
        }
        Err(refusal) => Err(refused(rt, PROGRAM, store, refusal, What::Day(place_of(day)))),
    }
}

fn list_machine(
    rt: &HostRuntime,
    store: &mut OpenStore,
    machine: u8,
    damaged: &mut Option<DayName>,
) -> Result<(), Trouble> {
    let highest = match store.highest(machine) {
        Ok(highest) => highest,
        Err(refusal) => {
            let what = What::Machine(u64::from(machine));
            return Err(refused(rt, PROGRAM, store, refusal, what));
        }
    };
    for before in 0..highest {
        let number = before + 1;
        list_day(rt, store, DayName { machine, number }, damaged)?;
    }
    Ok(())
}

// Lists all days, and refuses then the first that is damaged.
pub fn list_days(rt: &HostRuntime, store: &mut OpenStore) -> Result<(), Trouble> {
    let mut damaged = None;
    for machine in 0..MACHINES {
        list_machine(rt, store, machine, &mut damaged)?;
    }
    match damaged {
        Some(day) => Err(Trouble::refused(PROGRAM, Refusal::BadDay, What::Day(place_of(day)))),
        None => Ok(()),
    }
}

fn say_files(rt: &HostRuntime, files: &[FileEntry]) -> io::Result<()> {
    let mut out = io::writer(rt);
    for file in files {
        write!(out, "{} ", file.length)?;
        out.write_all(file.path.as_bytes())?;
        out.write_all(b"\n")?;
    }
    Ok(())
}

fn files_there(
    rt: &HostRuntime,
    store: &mut OpenStore,
    place: Place,
) -> Result<dayfile::Day, Refusal> {
    let day = place.day()?;
    files_of(rt, store, day)?.ok_or(Refusal::Unknown)
}

// Lists the files of a day.
pub fn list_files(rt: &HostRuntime, store: &mut OpenStore, place: Place) -> Result<(), Trouble> {
    match files_there(rt, store, place) {
        Ok(files) => say_files(rt, files.files()).map_err(Trouble::output),
        Err(refusal) => Err(refused(rt, PROGRAM, store, refusal, What::Day(place))),
    }
}
