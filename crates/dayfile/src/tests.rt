// That a day is written and read where there is memory, since no contract can say when there is; and examples of what is refused.
use crate::{Day, FileEntry, Path, fill_file, fill_piece, read, write};
use cutting::Refusal;
use digest::{Digest, sha256};
use std::alloc::Global;
use std::test::Fail;
use store::DayName;

const NAME: DayName = DayName {
    machine: 5,
    number: 263,
};

// An empty file a, and a file ab of 65,539 bytes in one piece, made by hand; the digest by another program.
const BYTES: [u8; 89] = [
    68, 5, 0, 0, 1, 7, 0, 2, 1, 97, 0, 0, 0, 0, 0, 0, 2, 97, 98, 0, 1, 0, 3, 0, 1, 0, 1, 2, 3, 4,
    5, 6, 7, 8, 9, 10, 11, 12, 13, 14, 15, 16, 17, 18, 19, 20, 21, 22, 23, 24, 25, 26, 27, 28, 29,
    30, 31, 79, 136, 129, 76, 173, 222, 61, 107, 137, 109, 83, 96, 83, 86, 22, 15, 108, 122, 152,
    157, 81, 116, 125, 213, 44, 178, 64, 144, 144, 193, 33, 240,
];

// The name of its one piece.
fn piece_name() -> Digest {
    Digest::from([
        0, 1, 2, 3, 4, 5, 6, 7, 8, 9, 10, 11, 12, 13, 14, 15, 16, 17, 18, 19, 20, 21, 22, 23, 24,
        25, 26, 27, 28, 29, 30, 31,
    ])
}

// Adds a file whose pieces are so often the one.
fn add(
    heap: Global,
    day: &mut Day,
    path: &[u8],
    length: u32,
    pieces: usize,
) -> Result<(), Refusal> {
    let entry = FileEntry {
        path: Path::new(heap, path)?,
        length,
        pieces: vec![in heap; piece_name(); pieces]?,
    };
    day.push(entry)
}

// The day of those bytes.
fn example(heap: Global) -> Result<Day, Refusal> {
    let mut day = Day::new(heap);
    add(heap, &mut day, b"a", 0, 0)?;
    add(heap, &mut day, b"ab", 65_539, 1)?;
    Ok(day)
}

#[test]
fn a_day_is_written_and_read_back(rt: HostRuntime) -> Result<(), Fail> {
    let Ok(day) = example(rt.alloc()) else {
        return Err(Fail::new("no day"));
    };
    let Ok(bytes) = write(rt.alloc(), NAME, &day) else {
        return Err(Fail::new("not written"));
    };
    assert!(rt; bytes.as_slice() == BYTES.as_slice(), "byte for byte");
    let Ok(found) = read(rt.alloc(), NAME, &BYTES) else {
        return Err(Fail::new("not read"));
    };
    assert!(rt; found.files().len() == 2, "two files");
    let Some(file) = found.find(b"ab") else {
        return Err(Fail::new("not found"));
    };
    assert!(rt;
        file.path.as_bytes() == b"ab".as_slice() && file.length == 65_539,
        "the second"
    );
    assert!(rt;
        file.pieces.as_slice() == [piece_name()].as_slice(),
        "its piece"
    );
    assert!(rt;
        found.find(b"b").is_none() && found.find(b"").is_none(),
        "no others"
    );
    Ok(())
}

#[test]
fn a_day_of_no_files_is_read_back(rt: HostRuntime) -> Result<(), Fail> {
    let Ok(bytes) = write(rt.alloc(), NAME, &Day::new(rt.alloc())) else {
        return Err(Fail::new("not written"));
    };
    assert!(rt; bytes.len() == 40, "its bytes");
    let Ok(day) = read(rt.alloc(), NAME, &bytes) else {
        return Err(Fail::new("not read"));
    };
    assert!(rt; day.files().is_empty(), "no files");
    Ok(())
}

// Are these bytes refused by 2?
fn is_bad(heap: Global, name: DayName, bytes: &[u8]) -> bool {
    matches!(read(heap, name, bytes), Err(Refusal::BadDay))
}

#[test]
fn each_cut_is_refused(rt: HostRuntime) {
    for length in 0..89 {
        assert!(rt; is_bad(rt.alloc(), NAME, &BYTES[..length]), "a cut");
    }
}

#[test]
fn each_change_is_refused(rt: HostRuntime) {
    for place in 0..89 {
        let mut bytes = BYTES;
        for change in 1..=255 {
            bytes[place] = BYTES[place] ^ change;
            assert!(rt; is_bad(rt.alloc(), NAME, &bytes), "a change");
        }
    }
}

#[test]
fn another_name_is_refused(rt: HostRuntime) {
    let machine = DayName {
        machine: 6,
        number: 263,
    };
    let number = DayName {
        machine: 5,
        number: 262,
    };
    assert!(rt; is_bad(rt.alloc(), machine, &BYTES), "another machine");
    assert!(rt; is_bad(rt.alloc(), number, &BYTES), "another number");
}

// Are these bytes, with their digest behind them, refused by 2?
fn is_bad_body(heap: Global, body: &[u8]) -> Result<bool, Refusal> {
    let mut bytes = Vec::from_slice(heap, body)?;
    bytes.extend_from_slice(sha256(body).as_bytes())?;
    Ok(is_bad(heap, NAME, &bytes))
}

#[test]
fn bad_days_with_their_digest_are_refused(rt: HostRuntime) {
    let good = [68, 5, 0, 0, 1, 7, 0, 1, 1, 97, 0, 0, 0, 0, 0, 0];
    assert!(rt; is_bad_body(rt.alloc(), &good) == Ok(false), "a good one");
    assert!(rt;
        is_bad_body(rt.alloc(), &[67, 5, 0, 0, 1, 7, 0, 0]) == Ok(true),
        "another first byte"
    );
    assert!(rt;
        is_bad_body(rt.alloc(), &[68, 4, 0, 0, 1, 7, 0, 0]) == Ok(true),
        "another machine"
    );
    assert!(rt;
        is_bad_body(rt.alloc(), &[68, 5, 0, 0, 1, 7, 0, 0, 0]) == Ok(true),
        "a byte behind the files"
    );
    assert!(rt;
        is_bad_body(rt.alloc(), &[68, 5, 0, 0, 1, 7, 0, 1]) == Ok(true),
        "a file that is not there"
    );
    assert!(rt;
        is_bad_body(rt.alloc(), &[68, 5, 0, 0, 1, 7, 0, 1, 0, 0, 0, 0, 0, 0, 0]) == Ok(true),
        "an empty path"
    );
    assert!(rt;
        is_bad_body(
            rt.alloc(),
            &[
                68, 5, 0, 0, 1, 7, 0, 2, 1, 97, 0, 0, 0, 0, 0, 0, 1, 97, 0, 0, 0, 0, 0, 0
            ]
        ) == Ok(true),
        "a path twice"
    );
    assert!(rt;
        is_bad_body(
            rt.alloc(),
            &[68, 5, 0, 0, 1, 7, 0, 1, 1, 97, 1, 0, 0, 1, 0, 0]
        ) == Ok(true),
        "too long a file"
    );
    assert!(rt;
        is_bad_body(
            rt.alloc(),
            &[68, 5, 0, 0, 1, 7, 0, 1, 1, 97, 0, 0, 0, 1, 255, 255]
        ) == Ok(true),
        "pieces that are not there"
    );
}

#[test]
fn paths_have_limits(rt: HostRuntime) {
    let long = [7u8; 256];
    assert!(rt;
        matches!(Path::new(rt.alloc(), b""), Err(Refusal::BadPath)),
        "none"
    );
    assert!(rt; Path::new(rt.alloc(), b"a").is_ok(), "1 byte");
    assert!(rt; Path::new(rt.alloc(), &long[..255]).is_ok(), "255 bytes");
    assert!(rt;
        matches!(Path::new(rt.alloc(), &long), Err(Refusal::BadPath)),
        "256 bytes"
    );
}

#[test]
fn files_have_limits(rt: HostRuntime) {
    let mut day = Day::new(rt.alloc());
    assert!(rt;
        add(rt.alloc(), &mut day, b"a", 16_777_216, 0) == Ok(()),
        "the longest"
    );
    assert!(rt;
        add(rt.alloc(), &mut day, b"b", 16_777_217, 0) == Err(Refusal::FileTooLong),
        "a longer one"
    );
    assert!(rt;
        add(rt.alloc(), &mut day, b"b", 1, 65_535) == Ok(()),
        "the most pieces"
    );
    assert!(rt;
        add(rt.alloc(), &mut day, b"c", 1, 65_536) == Err(Refusal::FileTooLong),
        "more pieces"
    );
    assert!(rt;
        add(rt.alloc(), &mut day, b"c", 0, 1) == Err(Refusal::FileTooLong),
        "a piece of nothing"
    );
    assert!(rt; day.files().len() == 2, "no others");
}

#[test]
fn paths_rise(rt: HostRuntime) -> Result<(), Fail> {
    let Ok(mut day) = example(rt.alloc()) else {
        return Err(Fail::new("no day"));
    };
    assert!(rt;
        add(rt.alloc(), &mut day, b"ab", 0, 0) == Err(Refusal::PathNotAbove),
        "the same"
    );
    assert!(rt;
        add(rt.alloc(), &mut day, b"aa9", 0, 0) == Err(Refusal::PathNotAbove),
        "one below"
    );
    assert!(rt;
        add(rt.alloc(), &mut day, b"ab0", 0, 0) == Ok(()),
        "a longer one"
    );
    assert!(rt; day.find(b"ab0").is_some(), "it is there");
    assert!(rt; day.find(b"abc").is_none(), "and no other");
    Ok(())
}

#[test]
fn days_have_a_limit(rt: HostRuntime) {
    let mut day = Day::new(rt.alloc());
    for number in 0..4_096u16 {
        assert!(rt;
            add(rt.alloc(), &mut day, &number.to_be_bytes(), 0, 0) == Ok(()),
            "a file"
        );
    }
    assert!(rt;
        add(rt.alloc(), &mut day, &[255], 0, 0) == Err(Refusal::TooManyFiles),
        "one more"
    );
    assert!(rt;
        add(rt.alloc(), &mut day, &[255], 0, 1) == Err(Refusal::FileTooLong),
        "one that is never one"
    );
}

#[test]
fn slices_are_filled(rt: HostRuntime) {
    let mut piece = [0u8; 2];
    let mut file = [1u8, 2, 3, 4];
    assert!(rt;
        fill_piece(&mut piece, &file, 1) && piece == [2, 3],
        "from within"
    );
    assert!(rt;
        fill_piece(&mut piece, &file, 2) && piece == [3, 4],
        "up to the end"
    );
    assert!(rt;
        !fill_piece(&mut piece, &file, 3) && piece == [3, 4],
        "past the end"
    );
    assert!(rt;
        fill_file(&mut file, 0, &piece) && file == [3, 4, 3, 4],
        "at the front"
    );
    assert!(rt;
        fill_file(&mut file, 1, &[9, 8, 7]) && file == [3, 9, 8, 7],
        "up to the end"
    );
    assert!(rt;
        !fill_file(&mut file, 3, &[9, 8]) && file == [3, 9, 8, 7],
        "past the end"
    );
    assert!(rt;
        !fill_file(&mut file, 5, &[]) && fill_file(&mut file, 4, &[]),
        "nothing"
    );
}
