// That lines are played where there is memory, since no contract can say when there is; and what a refusal looks like.
use crate::Rehearsal;
use std::alloc::Global;
use std::test::Fail;

fn new_rehearsal(heap: Global) -> Result<Rehearsal, Fail> {
    let Ok(rehearsal) = Rehearsal::new(heap) else {
        return Err(Fail::new("there is no rehearsal"));
    };
    Ok(rehearsal)
}

// What is written for a line that is played.
fn played(heap: Global, rehearsal: &mut Rehearsal, line: &[u8]) -> Result<String, Fail> {
    let Ok(Some(answer)) = rehearsal.answer(heap, 1, line) else {
        return Err(Fail::new("a line is not played"));
    };
    Ok(answer.to_string(heap)?)
}

// What is written for a line that is not played.
fn refused(heap: Global, rehearsal: &mut Rehearsal, line: &[u8]) -> Result<String, Fail> {
    let Err(fault) = rehearsal.answer(heap, 1, line) else {
        return Err(Fail::new("a line is played"));
    };
    Ok(fault.to_string(heap)?)
}

#[test]
fn bytes_have_a_digest(rt: HostRuntime) -> Result<(), Fail> {
    let mut rehearsal = new_rehearsal(rt.alloc())?;
    let text = played(rt.alloc(), &mut rehearsal, b"digest 616263")?;
    assert!(rt;
        text.as_str() == "ba7816bf8f01cfea414140de5dae2223b00361a396177a9cb410ff61f20015ad",
        "its digits"
    );
    Ok(())
}

#[test]
fn a_file_is_cut(rt: HostRuntime) -> Result<(), Fail> {
    let mut rehearsal = new_rehearsal(rt.alloc())?;
    let text = played(rt.alloc(), &mut rehearsal, b"cut repeat 00 2952")?;
    assert!(rt;
        text.as_str()
            == "pieces 2\n2048 e5a00aa9991ac8a5ee3109844d84a55583bd20572ad3ffcd42792f3c36b183ad\n904 cc401ce5099578287fd15c062a92893754851bdb7ca3c1fe742bbff85e2281c2",
        "a line for each piece"
    );
    let text = played(rt.alloc(), &mut rehearsal, b"cut")?;
    assert!(rt; text.as_str() == "pieces 0", "no bytes, no pieces");
    Ok(())
}

#[test]
fn too_long_a_file_is_refused(rt: HostRuntime) -> Result<(), Fail> {
    let mut rehearsal = new_rehearsal(rt.alloc())?;
    let Err(fault) = rehearsal.answer(rt.alloc(), 7, b"cut random 1 16777217") else {
        return Err(Fail::new("it is cut"));
    };
    let text = fault.to_string(rt.alloc())?;
    assert!(rt;
        text.as_str() == "line 7: refused by 1: a file has at most 16777216 bytes",
        "under its line's number"
    );
    Ok(())
}

#[test]
fn a_machine_makes_a_day(rt: HostRuntime) -> Result<(), Fail> {
    let heap = rt.alloc();
    let mut rehearsal = new_rehearsal(heap)?;
    assert!(rt;
        played(heap, &mut rehearsal, b"begin 3")?.as_str() == "begun",
        "begin"
    );
    assert!(rt;
        played(heap, &mut rehearsal, b"see 3 61")?.as_str()
            == "written ca978112ca1bbdcafac231b39a23dc4da786eff8147c4e72b9807785afee48bb",
        "see to a piece"
    );
    assert!(rt;
        played(heap, &mut rehearsal, b"raise 3")?.as_str() == "raised 1",
        "raise"
    );
    assert!(rt;
        played(heap, &mut rehearsal, b"name 3")?.as_str() == "named 1",
        "name"
    );
    assert!(rt;
        played(heap, &mut rehearsal, b"show")?.as_str()
            == "place ca978112ca1bbdcafac231b39a23dc4da786eff8147c4e72b9807785afee48bb 1\nlisted 3 ca978112ca1bbdcafac231b39a23dc4da786eff8147c4e72b9807785afee48bb\nday 3 1 ca978112ca1bbdcafac231b39a23dc4da786eff8147c4e72b9807785afee48bb\nmachine 0 0 none\nmachine 1 0 none\nmachine 2 0 none\nmachine 3 1 none\nsweeper rests",
        "show"
    );
    assert!(rt;
        played(heap, &mut rehearsal, b"go 3 1")?.as_str() == "let go",
        "go"
    );
    played(heap, &mut rehearsal, b"begin 3")?;
    assert!(rt;
        played(heap, &mut rehearsal, b"break 3")?.as_str() == "broken off",
        "break"
    );
    Ok(())
}

#[test]
fn the_sweeper_sweeps(rt: HostRuntime) -> Result<(), Fail> {
    let heap = rt.alloc();
    let mut rehearsal = new_rehearsal(heap)?;
    for line in [
        b"begin 3".as_slice(),
        b"see 3 61",
        b"part 0",
        b"part 1",
        b"part 2",
    ] {
        played(heap, &mut rehearsal, line)?;
    }
    let name = "ca978112ca1bbdcafac231b39a23dc4da786eff8147c4e72b9807785afee48bb";
    assert!(rt;
        played(heap, &mut rehearsal, b"look")?.as_str() == "to put aside 1",
        "look"
    );
    assert!(rt;
        played(heap, &mut rehearsal, b"aside")?
            .as_str()
            .strip_prefix("put aside ")
            == Some(name),
        "aside"
    );
    assert!(rt;
        played(heap, &mut rehearsal, b"note")?.as_str() == "noted",
        "note"
    );
    assert!(rt;
        played(heap, &mut rehearsal, b"stop")?.as_str() == "stopped",
        "stop"
    );
    played(heap, &mut rehearsal, b"raise 3")?;
    played(heap, &mut rehearsal, b"name 3")?;
    assert!(rt;
        played(heap, &mut rehearsal, b"decide")?.as_str() == "to put back 1, to throw away 0",
        "decide"
    );
    assert!(rt;
        played(heap, &mut rehearsal, b"next")?
            .as_str()
            .strip_prefix("put back ")
            == Some(name),
        "next"
    );
    assert!(rt;
        played(heap, &mut rehearsal, b"show")?.as_str()
            == "place ca978112ca1bbdcafac231b39a23dc4da786eff8147c4e72b9807785afee48bb 1\nlisted 3 ca978112ca1bbdcafac231b39a23dc4da786eff8147c4e72b9807785afee48bb\nlisted sweeper ca978112ca1bbdcafac231b39a23dc4da786eff8147c4e72b9807785afee48bb\nday 3 1 ca978112ca1bbdcafac231b39a23dc4da786eff8147c4e72b9807785afee48bb\nmachine 0 0 parted\nmachine 1 0 parted\nmachine 2 0 parted\nmachine 3 1 none\nsweeper rests",
        "show"
    );
    Ok(())
}

#[test]
fn files_are_had_back(rt: HostRuntime) -> Result<(), Fail> {
    let heap = rt.alloc();
    let mut rehearsal = new_rehearsal(heap)?;
    played(heap, &mut rehearsal, b"begin 3")?;
    assert!(rt;
        played(heap, &mut rehearsal, b"file 3 c 61")?.as_str() == "added 1, written 1",
        "file"
    );
    assert!(rt;
        played(heap, &mut rehearsal, b"file 3 d")?.as_str() == "added 0, written 0",
        "a file of no bytes"
    );
    played(heap, &mut rehearsal, b"raise 3")?;
    played(heap, &mut rehearsal, b"name 3")?;
    assert!(rt;
        played(heap, &mut rehearsal, b"back 3 1 c")?.as_str() == "1 61",
        "back"
    );
    assert!(rt;
        played(heap, &mut rehearsal, b"back 3 1 d")?.as_str() == "0",
        "no bytes"
    );
    assert!(rt;
        played(heap, &mut rehearsal, b"bytes 3 1")?.as_str()
            == "88 44030000000100020163000000010001ca978112ca1bbdcafac231b39a23dc4da786eff8147c4e72b9807785afee48bb0164000000000000f5e6903b4cfa39e7a5321da1efc26041c68e965e9cca6622eb776cf2802fc016",
        "bytes"
    );
    Ok(())
}

#[test]
fn damage_is_seen(rt: HostRuntime) -> Result<(), Fail> {
    let heap = rt.alloc();
    let mut rehearsal = new_rehearsal(heap)?;
    for line in [
        b"begin 3".as_slice(),
        b"see 3 61",
        b"raise 3",
        b"name 3",
        b"flip-day 3 1 0",
    ] {
        played(heap, &mut rehearsal, line)?;
    }
    assert!(rt;
        refused(heap, &mut rehearsal, b"back 3 1 0001")?.as_str()
            == "line 1: refused by 2: a day is damaged or incomplete",
        "a day that is damaged"
    );
    assert!(rt;
        played(heap, &mut rehearsal, b"show")?.as_str()
            == "place ca978112ca1bbdcafac231b39a23dc4da786eff8147c4e72b9807785afee48bb 1\nlisted 3 ca978112ca1bbdcafac231b39a23dc4da786eff8147c4e72b9807785afee48bb\nday 3 1 damaged\nmachine 0 0 none\nmachine 1 0 none\nmachine 2 0 none\nmachine 3 1 none\nsweeper rests",
        "show"
    );
    assert!(rt;
        played(heap, &mut rehearsal, b"flip-day 3 1 0")?.as_str() == "flipped",
        "flip-day"
    );
    assert!(rt;
        played(heap, &mut rehearsal, b"back 3 1 0001")?.as_str() == "1 61",
        "a day that is mended"
    );
    assert!(rt;
        played(heap, &mut rehearsal, b"flip-place 0 61")?.as_str() == "flipped",
        "flip-place"
    );
    assert!(rt;
        refused(heap, &mut rehearsal, b"flip-aside 0 61")?.as_str()
            == "line 1: refused by 1: there is no such machine, day or path",
        "flip-aside"
    );
    assert!(rt;
        played(heap, &mut rehearsal, b"cut-day 3 1 1")?.as_str() == "cut",
        "cut-day"
    );
    assert!(rt;
        played(heap, &mut rehearsal, b"bytes 3 1")?.as_str() == "1 44",
        "what is left"
    );
    Ok(())
}
