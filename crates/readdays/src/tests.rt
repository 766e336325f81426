// That frames are answered where there is memory, since no contract can say when there is; and what a line looks like.
use crate::answer::Answer;
use crate::frame::Front;
use std::alloc::Global;
use std::test::Fail;

// A frame of machine 5 and day 263. The day has an empty file a, and a file ab of 65,539 bytes in one piece, made by hand; the digest by another program.
const FRAME: [u8; 94] = [
    5, 0, 0, 1, 7, 68, 5, 0, 0, 1, 7, 0, 2, 1, 97, 0, 0, 0, 0, 0, 0, 2, 97, 98, 0, 1, 0, 3, 0, 1,
    0, 1, 2, 3, 4, 5, 6, 7, 8, 9, 10, 11, 12, 13, 14, 15, 16, 17, 18, 19, 20, 21, 22, 23, 24, 25,
    26, 27, 28, 29, 30, 31, 79, 136, 129, 76, 173, 222, 61, 107, 137, 109, 83, 96, 83, 86, 22, 15,
    108, 122, 152, 157, 81, 116, 125, 213, 44, 178, 64, 144, 144, 193, 33, 240,
];

// The line of a frame.
fn line(heap: Global, frame: &[u8]) -> Result<String, Fail> {
    Ok(Answer::new(heap, frame)?.to_string(heap)?)
}

#[test]
fn a_day_is_read(rt: HostRuntime) -> Result<(), Fail> {
    assert!(rt;
        line(rt.alloc(), &FRAME)?.as_str()
            == "day 61 0 0 6162 65539 1 000102030405060708090a0b0c0d0e0f101112131415161718191a1b1c1d1e1f",
        "its files, in order"
    );
    Ok(())
}

#[test]
fn other_bytes_are_refused(rt: HostRuntime) -> Result<(), Fail> {
    for place in 0..FRAME.len() {
        let mut frame = FRAME;
        frame[place] ^= 1;
        assert!(rt;
            line(rt.alloc(), &frame)?.as_str() == "refused",
            "one bit turned at {place}"
        );
    }
    for length in [0usize, 4, 5, 93] {
        assert!(rt;
            line(rt.alloc(), &FRAME[..length])?.as_str() == "refused",
            "{length} bytes of it"
        );
    }
    Ok(())
}

// How many bytes a frame and what follows it have. None where there is no frame.
fn lengths(bytes: &[u8]) -> Option<(usize, usize)> {
    match Front::new(bytes) {
        Front::Frame(frame, after) => Some((frame.len(), after.len())),
        Front::Part | Front::TooLong => None,
    }
}

#[test]
fn frames_are_found(rt: HostRuntime) {
    assert!(rt;
        lengths(&[0, 0, 0, 2, 7, 8, 9]) == Some((2, 1)),
        "a frame, and one byte"
    );
    assert!(rt;
        lengths(&[0, 0, 0, 0]) == Some((0, 0)),
        "a frame of no bytes"
    );
    assert!(rt; lengths(&[0, 0, 1, 0, 7]).is_none(), "a part of a frame");
    assert!(rt; lengths(&[]).is_none(), "nothing");
    assert!(rt;
        matches!(Front::new(&[4, 0, 0, 0]), Front::Part),
        "64 MiB may come"
    );
    assert!(rt;
        matches!(Front::new(&[4, 0, 0, 1]), Front::TooLong),
        "one byte more may not"
    );
}
