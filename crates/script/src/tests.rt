// That bytes are read where there is memory, since no contract can say when there is; and words by themselves.
use crate::{Message, is_word, next_word, quoted};
use digest::sha256;
use std::test::Fail;

#[test]
fn bytes_in_each_form(rt: HostRuntime) -> Result<(), Fail> {
    let Ok(given) = Message::read(rt.alloc(), b" 616263 ") else {
        return Err(Fail::new("hexadecimal digits are refused"));
    };
    assert!(rt; given.digest() == sha256(b"abc"), "digits");
    let Ok(repeated) = Message::read(rt.alloc(), b"repeat 61 4097") else {
        return Err(Fail::new("a repeated byte is refused"));
    };
    let digest = repeated.digest();
    assert!(rt; repeated.length() == 4097, "so many");
    let bytes = repeated.into_bytes(rt.alloc())?;
    assert!(rt;
        bytes.len() == 4097 && sha256(bytes.as_slice()) == digest,
        "all of them"
    );
    let Ok(random) = Message::read(rt.alloc(), b"random 1 4") else {
        return Err(Fail::new("a seed is refused"));
    };
    let digest = random.digest();
    let bytes = random.into_bytes(rt.alloc())?;
    assert!(rt;
        bytes.as_slice() == [0x6c, 0x82, 0xa5, 0x62].as_slice(),
        "from a seed"
    );
    assert!(rt; digest == sha256(bytes.as_slice()), "and their digest");
    Ok(())
}

#[test]
fn words_and_faults(rt: HostRuntime) -> Result<(), Fail> {
    let Some((word, rest)) = next_word(b"\tcut  this ") else {
        return Err(Fail::new("a word is not found"));
    };
    assert!(rt;
        is_word(word, b"cut") && !is_word(word, b"cuts"),
        "the first word"
    );
    assert!(rt;
        next_word(rest).is_some() && next_word(b" \t").is_none(),
        "another, and none"
    );
    let shown = quoted(rt.alloc(), b"a'b")?;
    assert!(rt; shown.as_str() == "'a\\x27b'", "a word as it is shown");
    let Err(fault) = Message::read(rt.alloc(), b"61x") else {
        return Err(Fail::new("61x is read"));
    };
    let text = fault.to_string(rt.alloc())?;
    assert!(rt;
        text.as_str() == "'x' is not a hexadecimal digit, at place 3",
        "a fault in words"
    );
    Ok(())
}

#[test]
fn forms_of_bytes(rt: HostRuntime) -> Result<(), Fail> {
    let Err(fault) = Message::read(rt.alloc(), b"random 1") else {
        return Err(Fail::new("a seed alone is read"));
    };
    let text = fault.to_string(rt.alloc())?;
    assert!(rt;
        text.as_str() == "write bytes as HEX, as 'repeat BYTE COUNT' or as 'random SEED COUNT'",
        "the forms that there are"
    );
    Ok(())
}
