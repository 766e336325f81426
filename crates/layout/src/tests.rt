// Each form with its bytes, whose digests another program gave; lists of machines, and what is wrong with some.
use crate::{
    LineFault, MachinesFault, day_path, days_folder, highest_path, list_path, lock_path, names_in,
    number_file, piece_path, read_machines, read_number, read_sweep, sweep_file, torn,
    write_machines, writing_path,
};
use digest::Digest;
use std::test::Fail;
use store::{DayName, Noted, Spot, Sweep};

#[test]
fn paths_are_spelled(rt: HostRuntime) -> Result<(), Fail> {
    let heap = rt.alloc();
    let name = Digest::from([171; 32]);
    let day = DayName {
        machine: 7,
        number: 12,
    };
    let place = piece_path(heap, Spot::Place, name)?;
    assert!(rt;
        place.as_str() == "p/abababababababababababababababababababababababababababababababab"
    );
    let aside = piece_path(heap, Spot::Aside, name)?;
    assert!(rt;
        aside.as_str() == "a/abababababababababababababababababababababababababababababababab"
    );
    assert!(rt; list_path(heap, 63)?.as_str() == "i/63");
    assert!(rt; highest_path(heap, 0)?.as_str() == "m/0");
    assert!(rt; days_folder(heap, 7)?.as_str() == "d/7");
    assert!(rt; day_path(heap, day)?.as_str() == "d/7/12");
    assert!(rt; writing_path(heap, Some(7))?.as_str() == "t/7");
    assert!(rt; writing_path(heap, None)?.as_str() == "t/s");
    assert!(rt; lock_path(heap, Some(7))?.as_str() == "t/7.lock");
    assert!(rt; lock_path(heap, None)?.as_str() == "t/s.lock");
    Ok(())
}

// The file of the number 1000000.
const MILLION: [u8; 36] = [
    0, 15, 66, 64, 105, 3, 57, 15, 206, 34, 204, 67, 106, 80, 119, 249, 37, 118, 109, 169, 247,
    218, 47, 150, 195, 226, 160, 99, 127, 209, 206, 72, 215, 192, 48, 22,
];

#[test]
fn a_number_is_written_and_read(rt: HostRuntime) {
    assert!(rt; number_file(1_000_000) == MILLION, "its bytes");
    assert!(rt; read_number(&MILLION) == Some(1_000_000), "read back");
    assert!(rt; read_number(&MILLION[..35]).is_none(), "a cut");
    assert!(rt; read_number(&[]).is_none(), "nothing");
    let mut other = MILLION;
    other[3] = 65;
    assert!(rt; read_number(&other).is_none(), "another number");
}

// The files of a sweeper that rests, and of one that ends.
const RESTS: [u8; 33] = [
    0, 110, 52, 11, 156, 255, 179, 122, 152, 156, 165, 68, 230, 187, 120, 10, 44, 120, 144, 29, 63,
    179, 55, 56, 118, 133, 17, 163, 6, 23, 175, 160, 29,
];

const ENDS: [u8; 33] = [
    2, 219, 193, 180, 201, 0, 255, 228, 141, 87, 91, 93, 165, 198, 56, 4, 1, 37, 246, 93, 176, 254,
    62, 36, 73, 75, 118, 234, 152, 100, 87, 217, 134,
];

// What follows the 1, and the 64 numbers 0, 65536, 131072, .., in the file of a sweeper that waits.
const WAITS_DIGEST: [u8; 32] = [
    33, 42, 34, 6, 185, 179, 118, 103, 172, 66, 41, 8, 138, 212, 129, 178, 58, 165, 107, 112, 238,
    76, 101, 5, 178, 17, 229, 68, 9, 208, 162, 193,
];

// The numbers that are noted: 65536 times that of the machine.
fn noted() -> Noted {
    let mut highest = [0; 64];
    for (number, machine) in highest.iter_mut().zip(0u8..64) {
        *number = u32::from(machine) * 65_536;
    }
    Noted { highest }
}

#[test]
fn what_the_sweeper_does_is_written_and_read(rt: HostRuntime) -> Result<(), Fail> {
    let heap = rt.alloc();
    assert!(rt;
        sweep_file(heap, &Sweep::Rests)?.as_slice() == RESTS.as_slice(),
        "rests"
    );
    assert!(rt;
        sweep_file(heap, &Sweep::Ends)?.as_slice() == ENDS.as_slice(),
        "ends"
    );
    let waits = sweep_file(heap, &Sweep::Waits(noted()))?;
    assert!(rt;
        waits.len() == 289 && waits.starts_with(&[1, 0, 0, 0, 0, 0, 1, 0, 0, 0]),
        "waits"
    );
    assert!(rt; waits.ends_with(&WAITS_DIGEST), "its digest");
    assert!(rt;
        matches!(read_sweep(&RESTS), Some(Sweep::Rests)),
        "read as resting"
    );
    assert!(rt;
        matches!(read_sweep(&ENDS), Some(Sweep::Ends)),
        "read as ending"
    );
    let Some(Sweep::Waits(found)) = read_sweep(&waits) else {
        return Err(Fail::new("not read"));
    };
    assert!(rt; found.highest == noted().highest, "read back");
    let Some((_, cut)) = waits.split_last() else {
        return Err(Fail::new("nothing written"));
    };
    assert!(rt; read_sweep(cut).is_none(), "a cut");
    assert!(rt; read_sweep(&MILLION).is_none(), "a number");
    Ok(())
}

#[test]
fn names_are_read(rt: HostRuntime) -> Result<(), Fail> {
    let mut bytes = [7; 70];
    bytes[32] = 8;
    let names = names_in(rt.alloc(), &bytes)?;
    assert!(rt;
        names.len() == 2 && names[0] == Digest::from([7; 32]),
        "the first of two"
    );
    assert!(rt; names[1].as_bytes().starts_with(&[8, 7]), "the second");
    assert!(rt; torn(70) == 6 && torn(64) == 0, "what is left");
    assert!(rt;
        names_in(rt.alloc(), &bytes[..31])?.is_empty(),
        "no whole one"
    );
    Ok(())
}

#[test]
fn machines_are_read(rt: HostRuntime) -> Result<(), Fail> {
    let heap = rt.alloc();
    let text = b"# ours\r\n\n 1 library\r\n07\tdesk\n63\n end \n\n#\n \t";
    assert!(rt;
        read_machines(heap, text).is_ok_and(|found| found.as_slice() == [1, 7, 63].as_slice()),
        "three"
    );
    assert!(rt;
        read_machines(heap, b"end").is_ok_and(|found| found.is_empty()),
        "none"
    );
    let written = write_machines(heap, &[5, 0, 63])?;
    assert!(rt; written.ends_with(b"\n5\n0\n63\nend\n"), "what is written");
    assert!(rt;
        read_machines(heap, &written).is_ok_and(|found| found.as_slice() == [5, 0, 63].as_slice()),
        "it is read"
    );
    Ok(())
}

// What is wrong with a list of machines, in words.
fn fault(rt: &HostRuntime, text: &[u8]) -> Result<String, Fail> {
    match read_machines(rt.alloc(), text) {
        Ok(_) => Err(Fail::new("it is read")),
        Err(fault) => Ok(fault.to_string(rt.alloc())?),
    }
}

#[test]
fn faults_of_a_list_are_told(rt: HostRuntime) -> Result<(), Fail> {
    let cut = "it has no last line `end`, so it was cut";
    assert!(rt; fault(&rt, b"")?.as_str() == cut, "nothing");
    assert!(rt;
        fault(&rt, b"0 a\n1 b\nen")?.as_str()
            == "line 3: it does not begin with the number of a machine, from 0 to 63",
        "half of the last line"
    );
    assert!(rt; fault(&rt, b"0 a\n1 b\n")?.as_str() == cut, "no last line");
    assert!(rt;
        fault(&rt, b"0\n1\n01 b\nend")?.as_str() == "line 3: machine 1 stands there twice",
        "twice"
    );
    assert!(rt;
        fault(&rt, b"0\n64\nend")?.as_str()
            == "line 2: it does not begin with the number of a machine, from 0 to 63",
        "64"
    );
    assert!(rt;
        fault(&rt, b"007\nend")?.as_str()
            == "line 1: it does not begin with the number of a machine, from 0 to 63",
        "three digits"
    );
    assert!(rt;
        fault(&rt, b"end of it\nend")?.as_str()
            == "line 1: it does not begin with the number of a machine, from 0 to 63",
        "a word behind end"
    );
    assert!(rt;
        fault(&rt, b"0\nend\n# more\n1")?.as_str() == "line 4: something stands behind `end`",
        "a machine behind it"
    );
    assert!(rt;
        fault(&rt, b"end\nend")?.as_str() == "line 2: something stands behind `end`",
        "end twice"
    );
    let twice = MachinesFault::Line(3, LineFault::Twice(1));
    assert!(rt;
        matches!(read_machines(rt.alloc(), b"\n1\n1\nend"), Err(fault) if fault == twice),
        "as a value"
    );
    Ok(())
}
