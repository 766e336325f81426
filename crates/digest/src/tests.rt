// What no script runs: digests read back and compared, and messages in parts.
use crate::{Digest, Hasher, NotADigest, sha256, sha256_each, sha256_parts};
use std::cmp::Ordering;
use std::test::Fail;

const ABC: &str = "ba7816bf8f01cfea414140de5dae2223b00361a396177a9cb410ff61f20015ad";

#[test]
fn text_reads_back(rt: HostRuntime) -> Result<(), Fail> {
    let text = sha256(b"abc").to_string(rt.alloc())?;
    assert_eq!(rt; text.as_str(), ABC, "the digits of abc");
    let back: Digest = text.as_str().parse()?;
    assert_eq!(rt; back, sha256(b"abc"), "it reads back");
    assert_eq!(rt;
        Digest::read(b"BA7816BF8F01CFEA414140DE5DAE2223B00361A396177A9CB410FF61F20015AD"),
        Err(NotADigest),
        "capitals"
    );
    assert_eq!(rt;
        Digest::read(b"ba7816bf8f01cfea414140de5dae2223b00361a396177a9cb410ff61f20015a"),
        Err(NotADigest),
        "a digit short"
    );
    assert_eq!(rt; Digest::read(b""), Err(NotADigest), "no digits");
    Ok(())
}

#[test]
fn bytes_decide_the_order(rt: HostRuntime) {
    let mut bytes = [7u8; 32];
    let low = Digest::from(bytes);
    bytes[31] = 8;
    let more = Digest::from(bytes);
    bytes[0] = 6;
    let less = Digest::from(bytes);
    assert!(rt; low < more && less < low && !(low < low), "order");
    assert_eq!(rt; low.cmp(&more), Ordering::Less, "order, by cmp");
    assert!(rt; low == low && low != more, "equality");
}

#[test]
fn parts_make_the_whole(rt: HostRuntime) -> Result<(), Fail> {
    let message = [97u8; 200];
    let mut hasher = Hasher::new();
    hasher.update(&message[0..1]);
    hasher.update(&message[1..64]);
    hasher.update(&[]);
    hasher.update(&message[64..200]);
    assert_eq!(rt; hasher.finish(), sha256(&message), "a hasher");
    assert_eq!(rt;
        sha256_parts(&[&message[0..63], &message[63..200]]),
        sha256(&message),
        "slices"
    );
    let each = sha256_each(rt.alloc(), &[b"", b"abc"])?;
    assert_eq!(rt;
        each.as_slice(),
        [sha256(b""), sha256(b"abc")].as_slice(),
        "each"
    );
    Ok(())
}
