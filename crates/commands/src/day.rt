// Makes a day of files.
use crate::advice::refusal_of;
use crate::asked::machine_of;
use crate::files::{Files, look_at_all, read_up_to};
use crate::list_file::{BadLine, MOST_IN_LIST, paths_in};
use crate::opening::{OpenStore, refused};
use crate::program::Program;
use crate::summary::Summary;
use crate::trouble::{Trouble, What, Why};
use cutting::Refusal;
use days::{Done, Machine};
use std::{fs, io};
use store::{DayName, Store};

const PROGRAM: Program = Program::Day;

fn list_bytes(rt: &HostRuntime, list: &str) -> io::Result<Vec<u8>> {
    if list == "-" {
        return read_up_to(rt.alloc(), &mut rt.stdin(), MOST_IN_LIST);
    }
    let mut file = fs::open(rt, list)?;
    read_up_to(rt.alloc(), &mut file, MOST_IN_LIST)
}

fn read_list(rt: &HostRuntime, list: &str) -> Result<Vec<u8>, Trouble> {
    match list_bytes(rt, list) {
        Ok(bytes) => Ok(bytes),
        Err(error) => Err(Trouble::new(
            What::List(String::from_str(rt.alloc(), list)?),
            Why::System(error),
            "name a text file with a path on each line, or - for standard input",
        )),
    }
}

// What is said of a line of this list that is refused.
fn bad_line(rt: &HostRuntime, list: &[u8], bad: BadLine) -> Trouble {
    let line = list.split(|b| *b == b'\n').nth(bad.line.saturating_sub(1));
    let what = match Vec::from_slice(rt.alloc(), line.unwrap_or(&[])) {
        Ok(bytes) => What::Line(bad.line, bytes),
        Err(e) => return Trouble::from(e),
    };
    match refusal_of(bad.fault) {
        Some(refusal) => Trouble::refused(PROGRAM, refusal, what),
        None => Trouble::new(
            what,
            Why::Words("it is not UTF-8"),
            "rename the file, or take the line off the list",
        ),
    }
}

// The number of a machine that is on the list.
fn listed(store: &mut OpenStore, machine: u64) -> Result<u8, Refusal> {
    let machine = machine_of(machine)?;
    if !store.has_machine(machine)? {
        return Err(Refusal::Unknown);
    }
    Ok(machine)
}

// From now on the store is that of this machine alone, which can have a number more. Else nothing is written for a day that could not be named.
fn begin(store: &mut OpenStore, machine: u8) -> Result<(), Refusal> {
    store.store.lock_machine(machine)?;
    if store.highest(machine)? == u32::MAX {
        return Err(Refusal::LastNumber);
    }
    Ok(())
}

// What a day that was named has.
fn summary(rt: &HostRuntime, store: &mut OpenStore, day: DayName) -> Result<Summary, Refusal> {
    let Some(bytes) = store.read_day(day)? else {
        return Err(Refusal::Unknown);
    };
    let files = dayfile::read(rt.alloc(), day, &bytes)?;
    store.store.finish()?;
    Ok(Summary::of(files.files()))
}

// All at once, so that it is written whole or not at all.
fn say(rt: &HostRuntime, store: &OpenStore, number: u32, made: &Summary) -> io::Result<()> {
    let Summary {
        files,
        bytes,
        pieces,
    } = *made;
    let new = store.store.written();
    let text = format!(in rt.alloc();
        "day {number}\nfiles {files}\nbytes {bytes}\npieces {pieces}\nnew {}\nwritten {}\n",
        new.pieces, new.bytes
    )?;
    print!(rt; "{text}")
}

pub fn day(
    rt: &HostRuntime,
    store: &mut OpenStore,
    tells: bool,
    machine: u64,
    list: &str,
) -> Result<(), Trouble> {
    let number = match listed(store, machine) {
        Ok(number) => number,
        Err(refusal) => return Err(refused(rt, PROGRAM, store, refusal, What::Machine(machine))),
    };
    let text = read_list(rt, list)?;
    let paths = paths_in(rt.alloc(), &text).map_err(|bad| bad_line(rt, &text, bad))?;
    look_at_all(rt, &paths)?;
    if let Err(refusal) = begin(store, number) {
        return Err(refused(rt, PROGRAM, store, refusal, What::Machine(machine)));
    }
    let mut files = Files::new(*rt, &paths, tells);
    let (_, made) = Machine::new(number).make_day(rt.alloc(), store, &mut files);
    let named = match made {
        Ok(Done::Named(named)) => named,
        Ok(_) => 0,
        Err(refusal) => {
            return Err(match files.into_trouble() {
                Some(trouble) => trouble,
                None => refused(rt, PROGRAM, store, refusal, What::Machine(machine)),
            });
        }
    };
    let name = DayName {
        machine: number,
        number: named,
    };
    match summary(rt, store, name) {
        Ok(made) => say(rt, store, named, &made).map_err(Trouble::output),
        Err(refusal) => Err(refused(rt, PROGRAM, store, refusal, What::Machine(machine))),
    }
}
