// That each request is done where there is memory, since no contract can say when there is.
use crate::{DayName, Listing, Memory, Noted, Refusal, Spot, Store, Sweep};
use digest::{Digest, sha256};
use std::test::Fail;

// Does just this lie there?
fn lies<S: Store>(store: &mut S, spot: Spot, name: Digest, bytes: &[u8]) -> bool {
    match store.read(spot, name) {
        Ok(Some(found)) => found.as_slice() == bytes,
        _ => false,
    }
}

// Does nothing lie there?
fn is_empty<S: Store>(store: &mut S, spot: Spot, name: Digest) -> bool {
    matches!(store.read(spot, name), Ok(None))
}

// Are just these names told, in this order?
fn are(told: Result<Vec<Digest>, Refusal>, names: &[Digest]) -> bool {
    match told {
        Ok(found) => found.as_slice() == names,
        Err(_) => false,
    }
}

// Do just these bytes lie under the name of this day?
fn has_file<S: Store>(store: &mut S, day: DayName, bytes: &[u8]) -> bool {
    match store.read_day(day) {
        Ok(Some(file)) => file.as_slice() == bytes,
        _ => false,
    }
}

#[test]
fn pieces_go_aside_and_back(rt: HostRuntime) -> Result<(), Fail> {
    let Ok(mut store) = Memory::new(rt.alloc(), &[]) else {
        return Err(Fail::new("no store"));
    };
    let name = sha256(b"abc");
    assert!(rt; is_empty(&mut store, Spot::Place, name), "nothing yet");
    assert!(rt; store.write(name, b"abc").is_ok(), "written");
    assert!(rt; lies(&mut store, Spot::Place, name, b"abc"), "in its place");
    assert!(rt; store.put_aside(name) == Ok(true), "put aside");
    assert!(rt;
        is_empty(&mut store, Spot::Place, name) && lies(&mut store, Spot::Aside, name, b"abc"),
        "aside"
    );
    assert!(rt; store.put_aside(name) == Ok(false), "nothing to put aside");
    assert!(rt; store.put_back(name) == Ok(true), "put back");
    assert!(rt;
        lies(&mut store, Spot::Place, name, b"abc") && is_empty(&mut store, Spot::Aside, name),
        "in its place again"
    );
    assert!(rt; store.throw_away(name) == Ok(false), "nothing aside");
    assert!(rt;
        store.put_aside(name) == Ok(true) && store.throw_away(name) == Ok(true),
        "thrown away"
    );
    assert!(rt;
        is_empty(&mut store, Spot::Place, name) && is_empty(&mut store, Spot::Aside, name),
        "gone"
    );
    Ok(())
}

#[test]
fn days_are_named_and_let_go(rt: HostRuntime) -> Result<(), Fail> {
    let Ok(mut store) = Memory::new(rt.alloc(), &[7]) else {
        return Err(Fail::new("no store"));
    };
    let name = sha256(b"abc");
    let day = DayName {
        machine: 7,
        number: 1,
    };
    assert!(rt;
        store.has_machine(7) == Ok(true) && store.has_machine(8) == Ok(false),
        "one machine"
    );
    assert!(rt;
        store.enlist(Listing { machine: 7, name }).is_ok(),
        "on its list"
    );
    assert!(rt; store.highest(7) == Ok(0), "no number yet");
    assert!(rt; store.raise(7, 1).is_ok(), "raised");
    assert!(rt; store.highest(7) == Ok(1), "its number");
    assert!(rt; matches!(store.read_day(day), Ok(None)), "no such day");
    assert!(rt; store.name_day(day, b"file").is_ok(), "named");
    assert!(rt; has_file(&mut store, day, b"file"), "its bytes");
    assert!(rt;
        store.name_day(day, b"") == Err(Refusal::DayIsThere),
        "its name is taken"
    );
    assert!(rt; store.let_go(day).is_ok(), "let go");
    assert!(rt; store.let_go(day) == Err(Refusal::Unknown), "not there");
    Ok(())
}

#[test]
fn lists_are_told(rt: HostRuntime) -> Result<(), Fail> {
    let Ok(mut store) = Memory::new(rt.alloc(), &[7, 8]) else {
        return Err(Fail::new("no store"));
    };
    let (name, other) = (sha256(b"abc"), sha256(b"abcd"));
    assert!(rt;
        are(store.names_of(7), &[]) && are(store.own_names(), &[]),
        "nothing yet"
    );
    assert!(rt;
        store.enlist(Listing { machine: 7, name }).is_ok()
            && store
                .enlist(Listing {
                    machine: 8,
                    name: other
                })
                .is_ok(),
        "in the lists of machines"
    );
    assert!(rt;
        store.enlist_own(other).is_ok() && store.enlist_own(other).is_ok(),
        "in the list of the sweeper"
    );
    assert!(rt;
        are(store.names_of(7), &[name]) && are(store.names_of(8), &[other]),
        "each machine's"
    );
    assert!(rt; are(store.own_names(), &[other]), "the sweeper's");
    Ok(())
}

#[test]
fn machines_are_taken_off(rt: HostRuntime) -> Result<(), Fail> {
    let Ok(mut store) = Memory::new(rt.alloc(), &[7, 8]) else {
        return Err(Fail::new("no store"));
    };
    assert!(rt; store.take_off(7).is_ok(), "taken off");
    assert!(rt;
        !store.is_listed(7) && store.is_listed(8),
        "one machine less"
    );
    assert!(rt; store.take_off(7) == Err(Refusal::Unknown), "not there");
    Ok(())
}

#[test]
fn what_the_sweeper_does_is_kept(rt: HostRuntime) -> Result<(), Fail> {
    let Ok(mut store) = Memory::new(rt.alloc(), &[]) else {
        return Err(Fail::new("no store"));
    };
    assert!(rt; matches!(store.kept(), Ok(Sweep::Rests)), "it rests");
    let noted = Noted { highest: [3; 64] };
    assert!(rt; store.keep(Sweep::Waits(noted)).is_ok(), "it waits");
    let Ok(Sweep::Waits(found)) = store.kept() else {
        return Err(Fail::new("it does not wait"));
    };
    assert!(rt; found.highest == [3; 64], "what it noted");
    assert!(rt; store.keep(Sweep::Ends).is_ok(), "it ends");
    assert!(rt; matches!(store.kept(), Ok(Sweep::Ends)), "it has ended");
    Ok(())
}

#[test]
fn contents_are_listed(rt: HostRuntime) -> Result<(), Fail> {
    let Ok(mut store) = Memory::new(rt.alloc(), &[7]) else {
        return Err(Fail::new("no store"));
    };
    let (kept, aside) = (sha256(b"kept"), sha256(b"aside now"));
    let day = DayName {
        machine: 7,
        number: 1,
    };
    let listing = Listing {
        machine: 7,
        name: kept,
    };
    assert!(rt;
        store.write(kept, b"kept").is_ok() && store.write(aside, b"aside now").is_ok(),
        "written"
    );
    assert!(rt; store.put_aside(aside) == Ok(true), "put aside");
    assert!(rt;
        store.enlist(listing).is_ok() && store.name_day(day, b"file").is_ok(),
        "a day"
    );
    assert!(rt; store.enlist_own(aside).is_ok(), "in the sweeper's list");
    let Ok(contents) = store.contents() else {
        return Err(Fail::new("no contents"));
    };
    assert!(rt;
        contents.place.len() == 1
            && contents.place[0].name == kept
            && contents.place[0].length == 4,
        "in its place"
    );
    assert!(rt;
        contents.aside.len() == 1
            && contents.aside[0].name == aside
            && contents.aside[0].length == 9,
        "aside"
    );
    assert!(rt;
        contents.listed.as_slice() == [listing].as_slice(),
        "in a list"
    );
    assert!(rt;
        contents.own.as_slice() == [aside].as_slice(),
        "in the sweeper's list"
    );
    assert!(rt;
        contents.days.len() == 1
            && contents.days[0].name == day
            && contents.days[0].file.as_slice() == b"file".as_slice(),
        "a day"
    );
    Ok(())
}

#[test]
fn pieces_are_damaged(rt: HostRuntime) -> Result<(), Fail> {
    let Ok(mut store) = Memory::new(rt.alloc(), &[]) else {
        return Err(Fail::new("no store"));
    };
    let name = sha256(b"abc");
    assert!(rt;
        store.flip(Spot::Place, name, 0) == Err(Refusal::Unknown),
        "no such piece"
    );
    assert!(rt; store.write(name, b"abc").is_ok(), "written");
    assert!(rt;
        store.flip(Spot::Place, name, 3) == Err(Refusal::Unknown)
            && store.flip(Spot::Aside, name, 0) == Err(Refusal::Unknown),
        "no such byte, and nothing aside"
    );
    assert!(rt; store.flip(Spot::Place, name, 2).is_ok(), "flipped");
    assert!(rt;
        lies(&mut store, Spot::Place, name, b"ab\x9c"),
        "its last byte"
    );
    assert!(rt; store.flip(Spot::Place, name, 2).is_ok(), "flipped again");
    assert!(rt; lies(&mut store, Spot::Place, name, b"abc"), "undone");
    assert!(rt;
        store.put_aside(name) == Ok(true) && store.write(name, b"abc").is_ok(),
        "aside and in its place"
    );
    assert!(rt; store.flip(Spot::Aside, name, 0).is_ok(), "flipped aside");
    assert!(rt;
        lies(&mut store, Spot::Aside, name, b"\x9ebc")
            && lies(&mut store, Spot::Place, name, b"abc"),
        "aside alone"
    );
    Ok(())
}

#[test]
fn days_are_damaged(rt: HostRuntime) -> Result<(), Fail> {
    let Ok(mut store) = Memory::new(rt.alloc(), &[7]) else {
        return Err(Fail::new("no store"));
    };
    let day = DayName {
        machine: 7,
        number: 1,
    };
    assert!(rt;
        store.flip_day(day, 0) == Err(Refusal::Unknown)
            && store.cut_day(day, 0) == Err(Refusal::Unknown),
        "no such day"
    );
    assert!(rt; store.name_day(day, b"file").is_ok(), "named");
    assert!(rt;
        store.flip_day(day, 4) == Err(Refusal::Unknown),
        "no such byte"
    );
    assert!(rt; store.flip_day(day, 0).is_ok(), "flipped");
    assert!(rt; has_file(&mut store, day, b"\x99ile"), "its first byte");
    assert!(rt; store.flip_day(day, 0).is_ok(), "flipped again");
    assert!(rt; has_file(&mut store, day, b"file"), "undone");
    assert!(rt;
        store.cut_day(day, 5) == Err(Refusal::Unknown),
        "it is not so long"
    );
    assert!(rt; store.cut_day(day, 4).is_ok(), "nothing to cut");
    assert!(rt; has_file(&mut store, day, b"file"), "all of it");
    assert!(rt; store.cut_day(day, 2).is_ok(), "cut");
    assert!(rt; has_file(&mut store, day, b"fi"), "its first bytes");
    Ok(())
}
