// Each step on the store in memory, also where no script leads: damaged pieces, days whose pieces are missing, and days that are not of their form.
use crate::{Done, Sweeper};
use cutting::Refusal;
use dayfile::{Day, FileEntry, Path};
use digest::{Digest, sha256};
use std::alloc::Global;
use std::test::Fail;
use store::{DayName, Listing, Memory, Spot, Store};

// A store of machine 7, which has listed x and y and has a day of x; both lie in their places.
fn new_store(heap: Global) -> Result<Memory, Fail> {
    let Ok(mut store) = Memory::new(heap, &[7]) else {
        return Err(Fail::new("there is no store"));
    };
    for piece in [b"x", b"y"] {
        let name = sha256(piece);
        let listing = Listing { machine: 7, name };
        if store.enlist(listing).is_err() || store.write(name, piece).is_err() {
            return Err(Fail::new("a piece is not written"));
        }
    }
    make_day(heap, &mut store, 1, &[sha256(b"x")])?;
    Ok(store)
}

// The bytes of a day of one file, which has these pieces.
fn day_file(heap: Global, name: DayName, pieces: &[Digest]) -> Result<Vec<u8>, Refusal> {
    let mut day = Day::new(heap);
    day.push(FileEntry {
        path: Path::new(heap, b"f")?,
        length: 1,
        pieces: Vec::from_slice(heap, pieces)?,
    })?;
    dayfile::write(heap, name, &day)
}

fn make_day(heap: Global, store: &mut Memory, number: u32, pieces: &[Digest]) -> Result<(), Fail> {
    let day = DayName { machine: 7, number };
    let Ok(file) = day_file(heap, day, pieces) else {
        return Err(Fail::new("there is no day file"));
    };
    if store.raise(7, number).is_err() || store.name_day(day, &file).is_err() {
        return Err(Fail::new("a day is not made"));
    }
    Ok(())
}

fn is_empty(store: &mut Memory, spot: Spot, name: Digest) -> bool {
    matches!(store.read(spot, name), Ok(None))
}

fn lies(store: &mut Memory, spot: Spot, name: Digest, bytes: &[u8]) -> bool {
    match store.read(spot, name) {
        Ok(Some(found)) => found.as_slice() == bytes,
        _ => false,
    }
}

#[test]
fn what_no_day_has_goes(rt: HostRuntime) -> Result<(), Fail> {
    let mut store = new_store(rt.alloc())?;
    let (x, y) = (sha256(b"x"), sha256(b"y"));
    let (sweeper, looked) = Sweeper::new().look(rt.alloc(), &mut store);
    assert!(rt; looked == Ok(Done::Looked(1)), "y alone");
    let (sweeper, aside) = sweeper.aside(&mut store);
    assert!(rt; aside == Ok(Done::PutAside(y)), "put aside");
    assert!(rt;
        is_empty(&mut store, Spot::Place, y) && lies(&mut store, Spot::Aside, y, b"y"),
        "it has moved"
    );
    let (sweeper, noted) = sweeper.note(&mut store);
    assert!(rt; noted == Ok(Done::Noted), "noted");
    let (sweeper, early) = sweeper.decide(rt.alloc(), &mut store);
    assert!(rt; early == Err(Refusal::Unfinished), "no day since");
    make_day(rt.alloc(), &mut store, 2, &[])?;
    let (sweeper, decided) = sweeper.decide(rt.alloc(), &mut store);
    assert!(rt; decided == Ok(Done::Decided(0, 1)), "decided");
    let (sweeper, thrown) = sweeper.next(&mut store);
    assert!(rt; thrown == Ok(Done::ThrownAway(y)), "thrown away");
    assert!(rt;
        is_empty(&mut store, Spot::Place, y) && is_empty(&mut store, Spot::Aside, y),
        "y is gone"
    );
    assert!(rt; lies(&mut store, Spot::Place, x, b"x"), "x stays");
    let (_sweeper, again) = sweeper.look(rt.alloc(), &mut store);
    assert!(rt; again == Ok(Done::Looked(0)), "it rests, and looks again");
    Ok(())
}

#[test]
fn a_missing_piece_is_refused(rt: HostRuntime) -> Result<(), Fail> {
    let mut store = new_store(rt.alloc())?;
    let x = sha256(b"x");
    assert!(rt; store.write(x, b"damaged") == Ok(()), "damage");
    let (sweeper, looked) = Sweeper::new().look(rt.alloc(), &mut store);
    assert!(rt; looked == Err(Refusal::BadDay), "x is not there");
    let (sweeper, noted) = sweeper.note(&mut store);
    assert!(rt; noted == Err(Refusal::NotAtThatPoint), "it still rests");
    assert!(rt; store.write(x, b"x") == Ok(()), "written anew");
    let (_sweeper, looked) = sweeper.look(rt.alloc(), &mut store);
    assert!(rt; looked == Ok(Done::Looked(1)), "and it looks");
    Ok(())
}

#[test]
fn a_day_that_is_not_of_its_form_is_refused(rt: HostRuntime) -> Result<(), Fail> {
    let mut store = new_store(rt.alloc())?;
    let (sweeper, _) = Sweeper::new().look(rt.alloc(), &mut store);
    let (sweeper, _) = sweeper.aside(&mut store);
    let (mut sweeper, noted) = sweeper.note(&mut store);
    assert!(rt; noted == Ok(Done::Noted), "it waits");
    let day = DayName {
        machine: 7,
        number: 2,
    };
    let Ok(file) = day_file(rt.alloc(), day, &[]) else {
        return Err(Fail::new("there is no day file"));
    };
    let Ok(Some(other)) = store.read_day(DayName {
        machine: 7,
        number: 1,
    }) else {
        return Err(Fail::new("there is no day 1"));
    };
    assert!(rt; store.raise(7, 2) == Ok(()), "raised");
    let Some((_, short)) = file.split_last() else {
        return Err(Fail::new("there are no bytes"));
    };
    let Ok(mut damaged) = file.clone() else {
        return Err(Fail::new("there is no memory"));
    };
    if let Some(byte) = damaged.first_mut() {
        *byte = 0;
    }
    // no bytes, a byte too few, the file of another day, and one in which a byte is not as it was
    for bytes in [&[], short, other.as_slice(), damaged.as_slice()] {
        assert!(rt; store.name_day(day, bytes) == Ok(()), "named");
        let (_, looked) = Sweeper::new().look(rt.alloc(), &mut store);
        assert!(rt; looked == Err(Refusal::BadDay), "no look");
        let decided;
        (sweeper, decided) = sweeper.decide(rt.alloc(), &mut store);
        assert!(rt; decided == Err(Refusal::BadDay), "no decision");
        assert!(rt; store.let_go(day) == Ok(()), "let go");
    }
    assert!(rt; store.name_day(day, &file) == Ok(()), "of its form");
    let (_sweeper, decided) = sweeper.decide(rt.alloc(), &mut store);
    assert!(rt; decided == Ok(Done::Decided(0, 1)), "it still waited");
    Ok(())
}

#[test]
fn the_lowest_number_wins(rt: HostRuntime) -> Result<(), Fail> {
    let mut store = new_store(rt.alloc())?;
    let (sweeper, _) = Sweeper::new().look(rt.alloc(), &mut store);
    let (sweeper, again) = sweeper.look(rt.alloc(), &mut store);
    assert!(rt; again == Err(Refusal::NotAtThatPoint), "it does not rest");
    assert!(rt; store.write(sha256(b"x"), b"") == Ok(()), "damage");
    let (sweeper, again) = sweeper.look(rt.alloc(), &mut store);
    assert!(rt; again == Err(Refusal::BadDay), "2 is less than 4");
    let (_sweeper, decided) = sweeper.decide(rt.alloc(), &mut store);
    assert!(rt; decided == Err(Refusal::BadDay), "here too");
    Ok(())
}

#[test]
fn what_is_damaged_aside_is_thrown_away(rt: HostRuntime) -> Result<(), Fail> {
    let mut store = new_store(rt.alloc())?;
    let x = sha256(b"x");
    let done = store.enlist_own(x).is_ok()
        && store.write(x, b"damaged").is_ok()
        && store.put_aside(x) == Ok(true)
        && store.write(x, b"x").is_ok();
    assert!(rt; done, "other bytes aside, the right ones in its place");
    let (sweeper, _) = Sweeper::new().look(rt.alloc(), &mut store);
    let (sweeper, _) = sweeper.aside(&mut store);
    let (sweeper, _) = sweeper.note(&mut store);
    make_day(rt.alloc(), &mut store, 2, &[])?;
    let (sweeper, decided) = sweeper.decide(rt.alloc(), &mut store);
    assert!(rt; decided == Ok(Done::Decided(0, 2)), "both go away");
    let (sweeper, _) = sweeper.next(&mut store);
    let (_sweeper, _) = sweeper.next(&mut store);
    assert!(rt;
        lies(&mut store, Spot::Place, x, b"x") && is_empty(&mut store, Spot::Aside, x),
        "x stays"
    );
    Ok(())
}

#[test]
fn it_comes_up_with_what_is_kept(rt: HostRuntime) -> Result<(), Fail> {
    let mut store = new_store(rt.alloc())?;
    let (sweeper, _) = Sweeper::new().look(rt.alloc(), &mut store);
    let (_stopped, _) = sweeper.aside(&mut store);
    let Ok(sweeper) = Sweeper::come_up(&mut store) else {
        return Err(Fail::new("it does not come up"));
    };
    let (sweeper, looked) = sweeper.look(rt.alloc(), &mut store);
    assert!(rt; looked == Ok(Done::Looked(0)), "it rested");
    let (_stopped, _) = sweeper.note(&mut store);
    let Ok(sweeper) = Sweeper::come_up(&mut store) else {
        return Err(Fail::new("it does not come up"));
    };
    make_day(rt.alloc(), &mut store, 2, &[sha256(b"y")])?;
    let (_stopped, decided) = sweeper.decide(rt.alloc(), &mut store);
    assert!(rt; decided == Ok(Done::Decided(1, 0)), "it waited");
    let Ok(sweeper) = Sweeper::come_up(&mut store) else {
        return Err(Fail::new("it does not come up"));
    };
    let (sweeper, next) = sweeper.next(&mut store);
    assert!(rt;
        next == Err(Refusal::NotAtThatPoint),
        "what was decided is not known"
    );
    let (sweeper, decided) = sweeper.decide(rt.alloc(), &mut store);
    assert!(rt; decided == Ok(Done::Decided(1, 0)), "it decides anew");
    let (_sweeper, back) = sweeper.next(&mut store);
    assert!(rt; back == Ok(Done::PutBack(sha256(b"y"))), "put back");
    assert!(rt;
        lies(&mut store, Spot::Place, sha256(b"y"), b"y"),
        "in its place again"
    );
    Ok(())
}
