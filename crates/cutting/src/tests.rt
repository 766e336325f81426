// What no script runs: the refusals, and pieces one by one.
use crate::{Pieces, Refusal, check_length, cut, number_after};
use std::test::Fail;

#[test]
fn refusals_have_their_numbers(rt: HostRuntime) -> Result<(), Fail> {
    assert!(rt;
        Refusal::FileTooLong.number() == Some(1) && Refusal::Unknown.number() == Some(1),
        "1"
    );
    assert!(rt; Refusal::BadDay.number() == Some(2), "2");
    assert!(rt;
        Refusal::MakesDay.number() == Some(3) && Refusal::MakesNone.number() == Some(3),
        "3"
    );
    assert!(rt; Refusal::NotAtThatPoint.number() == Some(4), "4");
    assert!(rt;
        Refusal::TooManyNames.number() == Some(5) && Refusal::LastNumber.number() == Some(6),
        "5 and 6"
    );
    assert!(rt;
        Refusal::NoMemory.number().is_none() && Refusal::ReadOrWrite.number().is_none(),
        "none"
    );
    let lowest = Refusal::NoMemory
        .lowest(Refusal::LastNumber)
        .lowest(Refusal::BadDay);
    let text = lowest.to_string(rt.alloc())?;
    assert!(rt;
        text.as_str() == "refused by 2: a day is damaged or incomplete",
        "the lowest, in words"
    );
    let text = Refusal::ReadOrWrite.to_string(rt.alloc())?;
    assert!(rt;
        text.as_str() == "a read or a write failed",
        "without a number"
    );
    Ok(())
}

#[test]
fn zeros_are_cut(rt: HostRuntime) -> Result<(), Fail> {
    let file = [0u8; 5000];
    let mut lengths = Vec::new(rt.alloc());
    let Ok(pieces) = Pieces::new(&file) else {
        return Err(Fail::new("5,000 bytes are refused"));
    };
    for piece in pieces {
        lengths.push(piece.len())?;
    }
    assert!(rt;
        lengths.as_slice() == [2048, 2048, 904].as_slice(),
        "one by one"
    );
    let Ok(all) = cut(rt.alloc(), &file) else {
        return Err(Fail::new("5,000 bytes are not cut"));
    };
    assert!(rt; all.len() == 3, "all at once");
    assert!(rt;
        check_length(16_777_216).is_ok() && check_length(16_777_217).is_err(),
        "the longest file"
    );
    Ok(())
}

#[test]
fn too_long_a_file_is_refused(rt: HostRuntime) -> Result<(), Fail> {
    let file = vec![in rt.alloc(); 0u8; 16_777_217]?;
    assert!(rt; Pieces::new(file.as_slice()).is_err(), "one by one");
    let Err(refusal) = cut(rt.alloc(), file.as_slice()) else {
        return Err(Fail::new("it is cut"));
    };
    assert!(rt; refusal.number() == Some(1), "by number 1");
    assert!(rt;
        refusal == Refusal::FileTooLong,
        "as a file that is too long"
    );
    Ok(())
}

#[test]
fn the_number_forgets(rt: HostRuntime) {
    let mut bytes = [7u8; 33];
    let before = number_after(&bytes);
    bytes[0] = 8;
    assert!(rt; number_after(&bytes) == before, "a byte 32 bytes back");
    bytes[1] = 8;
    assert!(rt; number_after(&bytes) != before, "a byte 31 bytes back");
}
