// Each step on the store in memory, also where no script leads: what lies aside, other bytes in a place, the last number, a refused file.
use crate::watched::Watched;
use crate::{Added, Done, GivenFile, Machine, back};
use cutting::Refusal;
use dayfile::{Day, read};
use digest::{Digest, sha256};
use std::alloc::Global;
use std::collections::VecDeque;
use std::test::Fail;
use store::{DayName, Memory, Spot, Store};

// The first day of machine 7.
const NAME: DayName = DayName {
    machine: 7,
    number: 1,
};

// Of these bytes the first piece has 2,048, the second as many, and the last 904.
const ZEROS: [u8; 5000] = [0; 5000];

fn new_store(heap: Global) -> Result<Memory, Fail> {
    let Ok(store) = Memory::new(heap, &[0, 7]) else {
        return Err(Fail::new("there is no store"));
    };
    Ok(store)
}

// The files of the first day of machine 7.
fn read_day(heap: Global, store: &mut Memory) -> Result<Day, Fail> {
    let Ok(Some(bytes)) = store.read_day(NAME) else {
        return Err(Fail::new("the day is not there"));
    };
    let Ok(day) = read(heap, NAME, &bytes) else {
        return Err(Fail::new("the day is bad"));
    };
    Ok(day)
}

// Is file number k of a day this one?
fn is_file(day: &Day, k: usize, path: &[u8], length: u32, pieces: &[Digest]) -> bool {
    match day.files().get(k) {
        Some(file) => {
            file.path.as_bytes() == path
                && file.length == length
                && file.pieces.as_slice() == pieces
        }
        None => false,
    }
}

#[test]
fn a_day_is_made(rt: HostRuntime) -> Result<(), Fail> {
    let mut store = new_store(rt.alloc())?;
    let name = sha256(b"x");
    let (machine, begun) = Machine::new(7).begin(rt.alloc(), &mut store);
    let (machine, written) = machine.see(rt.alloc(), &mut store, b"x");
    let (machine, found) = machine.see(rt.alloc(), &mut store, b"x");
    let (machine, raised) = machine.raise(&mut store);
    let (machine, named) = machine.name(rt.alloc(), &mut store);
    assert!(rt; begun == Ok(Done::Begun), "begun");
    assert!(rt; written == Ok(Done::Written(name)), "written");
    assert!(rt; found == Ok(Done::Found(name)), "found");
    assert!(rt; raised == Ok(Done::Raised(1)), "raised");
    assert!(rt; named == Ok(Done::Named(1)), "named");
    assert!(rt; machine.day().is_none(), "then it makes none");
    let day = read_day(rt.alloc(), &mut store)?;
    assert!(rt;
        day.files().len() == 2
            && is_file(&day, 0, b"0001", 1, &[name])
            && is_file(&day, 1, b"0002", 1, &[name]),
        "each piece is a file, by its place"
    );
    assert!(rt; store.let_go(NAME) == Ok(()), "the day was there");
    Ok(())
}

#[test]
fn files_are_added_and_named(rt: HostRuntime) -> Result<(), Fail> {
    let mut store = new_store(rt.alloc())?;
    let (full, rest) = (sha256(&ZEROS[..2048]), sha256(&ZEROS[..904]));
    let (machine, _) = Machine::new(7).begin(rt.alloc(), &mut store);
    let (machine, several) = machine.add(rt.alloc(), &mut store, b"a/b", &ZEROS);
    let (machine, none) = machine.add(rt.alloc(), &mut store, b"a/c", b"");
    assert!(rt;
        several
            == Ok(Done::Added(Added {
                pieces: 3,
                written: 2
            })),
        "the second piece is the first one again"
    );
    assert!(rt;
        none == Ok(Done::Added(Added {
            pieces: 0,
            written: 0
        })),
        "of no bytes"
    );
    let (machine, raised) = machine.raise(&mut store);
    let (machine, late) = machine.add(rt.alloc(), &mut store, b"b", b"x");
    let (_, named) = machine.name(rt.alloc(), &mut store);
    assert!(rt; raised == Ok(Done::Raised(1)), "raised");
    assert!(rt; late == Err(Refusal::HasNumber), "too late for another");
    assert!(rt; named == Ok(Done::Named(1)), "named");
    let day = read_day(rt.alloc(), &mut store)?;
    assert!(rt;
        day.files().len() == 2
            && is_file(&day, 0, b"a/b", 5000, &[full, full, rest])
            && is_file(&day, 1, b"a/c", 0, &[]),
        "the two files"
    );
    Ok(())
}

#[test]
fn a_day_goes_on_after_a_refused_file(rt: HostRuntime) -> Result<(), Fail> {
    let mut store = new_store(rt.alloc())?;
    let (machine, _) = Machine::new(7).begin(rt.alloc(), &mut store);
    let (machine, first) = machine.add(rt.alloc(), &mut store, b"b", b"x");
    let (machine, same) = machine.add(rt.alloc(), &mut store, b"b", b"y");
    let (machine, below) = machine.add(rt.alloc(), &mut store, b"a", b"y");
    let (machine, no_path) = machine.add(rt.alloc(), &mut store, b"", b"y");
    let (machine, piece) = machine.see(rt.alloc(), &mut store, b"y");
    let (machine, empty) = machine.see(rt.alloc(), &mut store, b"");
    let (machine, second) = machine.add(rt.alloc(), &mut store, b"c", b"y");
    let (machine, raised) = machine.raise(&mut store);
    let (_, named) = machine.name(rt.alloc(), &mut store);
    let one = Ok(Done::Added(Added {
        pieces: 1,
        written: 1,
    }));
    assert!(rt; first == one, "the first");
    assert!(rt; same == Err(Refusal::PathNotAbove), "its path again");
    assert!(rt; below == Err(Refusal::PathNotAbove), "a path below it");
    assert!(rt; no_path == Err(Refusal::BadPath), "no path");
    assert!(rt; piece == Err(Refusal::PathNotAbove), "0002 is below it");
    assert!(rt; empty == Err(Refusal::PieceEmpty), "no piece");
    assert!(rt; second == one, "nothing was written for those before it");
    assert!(rt;
        raised == Ok(Done::Raised(1)) && named == Ok(Done::Named(1)),
        "the day is made"
    );
    let day = read_day(rt.alloc(), &mut store)?;
    assert!(rt;
        day.files().len() == 2
            && is_file(&day, 0, b"b", 1, &[sha256(b"x")])
            && is_file(&day, 1, b"c", 1, &[sha256(b"y")]),
        "with the two that were added"
    );
    Ok(())
}

#[test]
fn what_is_aside_or_damaged_is_written(rt: HostRuntime) -> Result<(), Fail> {
    let mut store = new_store(rt.alloc())?;
    let name = sha256(b"x");
    let (machine, _) = Machine::new(0).begin(rt.alloc(), &mut store);
    let (machine, _) = machine.see(rt.alloc(), &mut store, b"x");
    assert!(rt; store.put_aside(name) == Ok(true), "it is put aside");
    let (machine, again) = machine.see(rt.alloc(), &mut store, b"x");
    assert!(rt; again == Ok(Done::Written(name)), "aside is not found");
    assert!(rt;
        store.write(name, b"y") == Ok(()),
        "other bytes under its name"
    );
    let (machine, again) = machine.see(rt.alloc(), &mut store, b"x");
    assert!(rt;
        again == Ok(Done::Written(name)),
        "other bytes are not found"
    );
    let Ok(Some(bytes)) = store.read(Spot::Place, name) else {
        return Err(Fail::new("it is not in its place"));
    };
    assert!(rt;
        bytes.as_slice() == b"x".as_slice(),
        "its bytes are there again"
    );
    let (machine, broken) = machine.break_off(&mut store);
    assert!(rt;
        broken == Ok(Done::BrokenOff) && machine.day().is_none(),
        "broken off"
    );
    Ok(())
}

#[test]
fn no_number_follows_the_last(rt: HostRuntime) -> Result<(), Fail> {
    let mut store = new_store(rt.alloc())?;
    assert!(rt; store.raise(0, 4_294_967_294) == Ok(()), "a high number");
    let (machine, _) = Machine::new(0).begin(rt.alloc(), &mut store);
    let (machine, last) = machine.raise(&mut store);
    assert!(rt; last == Ok(Done::Raised(4_294_967_295)), "the last one");
    let (machine, _) = machine.name(rt.alloc(), &mut store);
    let (machine, _) = machine.begin(rt.alloc(), &mut store);
    let (machine, past) = machine.raise(&mut store);
    assert!(rt; past == Err(Refusal::LastNumber), "none after it");
    assert!(rt; machine.day().is_some(), "it still makes the day");
    Ok(())
}

fn given(heap: Global, path: &[u8], bytes: &[u8]) -> Result<GivenFile, Fail> {
    match (Vec::from_slice(heap, path), Vec::from_slice(heap, bytes)) {
        (Ok(path), Ok(bytes)) => Ok(GivenFile { path, bytes }),
        _ => Err(Fail::new("there is no memory for a file")),
    }
}

// Is just this had back?
fn is_back<S: Store>(heap: Global, store: &mut S, path: &[u8], bytes: &[u8]) -> bool {
    match back(heap, store, NAME, path) {
        Ok(file) => file.as_slice() == bytes,
        Err(_) => false,
    }
}

// Is it refused by this?
fn is_refused<S: Store>(heap: Global, store: &mut S, path: &[u8], why: Refusal) -> bool {
    match back(heap, store, NAME, path) {
        Ok(_) => false,
        Err(refusal) => refusal == why,
    }
}

#[test]
fn whole_days_come_back(rt: HostRuntime) -> Result<(), Fail> {
    let heap = rt.alloc();
    let mut store = new_store(heap)?;
    let mut files = VecDeque::new(heap);
    files.push_back(given(heap, b"a", b"first")?)?;
    files.push_back(given(heap, b"b", &ZEROS)?)?;
    files.push_back(given(heap, b"c", b"")?)?;
    let (machine, named) = Machine::new(7).make_day(heap, &mut store, &mut files);
    assert!(rt; named == Ok(Done::Named(1)), "named");
    assert!(rt; machine.day().is_none(), "then it makes none");
    assert!(rt;
        is_back(heap, &mut store, b"a", b"first")
            && is_back(heap, &mut store, b"b", &ZEROS)
            && is_back(heap, &mut store, b"c", b""),
        "each file"
    );
    assert!(rt;
        is_refused(heap, &mut store, b"d", Refusal::Unknown),
        "no such path"
    );
    let name = sha256(b"first");
    assert!(rt; store.put_aside(name) == Ok(true), "put aside");
    assert!(rt; is_back(heap, &mut store, b"a", b"first"), "from aside");
    assert!(rt;
        store.write(name, b"other") == Ok(()) && is_back(heap, &mut store, b"a", b"first"),
        "other bytes in its place"
    );
    assert!(rt; store.throw_away(name) == Ok(true), "thrown away");
    assert!(rt;
        is_refused(heap, &mut store, b"a", Refusal::BadDay),
        "the piece is nowhere"
    );
    assert!(rt; is_back(heap, &mut store, b"b", &ZEROS), "another file");
    assert!(rt; store.flip_day(NAME, 0) == Ok(()), "the day is damaged");
    assert!(rt;
        is_refused(heap, &mut store, b"b", Refusal::BadDay),
        "not of its form"
    );
    assert!(rt; store.let_go(NAME) == Ok(()), "let go");
    assert!(rt;
        is_refused(heap, &mut store, b"b", Refusal::Unknown),
        "no such day"
    );
    Ok(())
}

#[test]
fn a_whole_day_is_broken_off(rt: HostRuntime) -> Result<(), Fail> {
    let heap = rt.alloc();
    let mut store = new_store(heap)?;
    let mut files = VecDeque::new(heap);
    files.push_back(given(heap, b"b", b"first")?)?;
    files.push_back(given(heap, b"a", b"second")?)?;
    let (machine, refused) = Machine::new(7).make_day(heap, &mut store, &mut files);
    assert!(rt;
        refused == Err(Refusal::PathNotAbove),
        "the paths do not rise"
    );
    assert!(rt; machine.day().is_none(), "it makes no day");
    assert!(rt;
        matches!(store.read_day(NAME), Ok(None)),
        "and none is named"
    );
    let (machine, _) = machine.begin(heap, &mut store);
    let (machine, refused) = machine.make_day(heap, &mut store, &mut files);
    assert!(rt;
        refused == Err(Refusal::MakesDay) && machine.day().is_some(),
        "one that makes a day goes on with that"
    );
    Ok(())
}

// A store on which a sweeper works, with nothing in it.
fn new_watched(heap: Global) -> Result<Watched, Fail> {
    Ok(Watched {
        memory: new_store(heap)?,
        listed_first: 0,
        written: 0,
    })
}

#[test]
fn names_are_listed_first(rt: HostRuntime) -> Result<(), Fail> {
    let heap = rt.alloc();
    let mut store = new_watched(heap)?;
    let (machine, _) = Machine::new(7).begin(heap, &mut store);
    let (_, added) = machine.add(heap, &mut store, b"a", &ZEROS);
    assert!(rt;
        added
            == Ok(Done::Added(Added {
                pieces: 3,
                written: 2
            })),
        "added"
    );
    assert!(rt;
        store.listed_first == 4 && store.written == 2,
        "each of the three that are not there, and the first one again before it is written"
    );
    Ok(())
}

#[test]
fn what_is_put_back_between_two_looks_is_found(rt: HostRuntime) -> Result<(), Fail> {
    let heap = rt.alloc();
    let mut store = new_watched(heap)?;
    let mut files = VecDeque::new(heap);
    files.push_back(given(heap, b"a", b"first")?)?;
    let (_, named) = Machine::new(7).make_day(heap, &mut store, &mut files);
    assert!(rt; named == Ok(Done::Named(1)), "named");
    assert!(rt; store.put_aside(sha256(b"first")) == Ok(true), "put aside");
    assert!(rt; is_back(heap, &mut store, b"a", b"first"), "put back");
    Ok(())
}
