use super::*;
use std::test::*;

// `a` is 0x61, so the key `a` has the bits 1 01100001 0, and `b`, which is 0x62, 1 01100010 0.
const BITS: [bool; 10] = [
    true, false, true, true, false, false, false, false, true, false,
];

#[test]
fn bits_of_one_letter(rt: HostRuntime) {
    for i in 0..10u32 {
        assert!(rt; bit(b"a", i) == BITS[i as usize], "bit {i}");
    }
    assert!(rt; !bit(b"a", 10), "zeros follow");
    assert!(rt; !bit(b"a", 4294967295), "zeros follow");
    assert_eq!(rt; bit_count(b"a"), 10);
    assert_eq!(rt; bit_count(b""), 1);
}

#[test]
fn differences(rt: HostRuntime) {
    assert!(rt; first_difference(b"a", b"b") == Some(7), "a and b");
    assert!(rt; first_difference(b"a", b"ab") == Some(9), "a and ab");
    assert!(rt; first_difference(b"ab", b"a") == Some(9), "ab and a");
    assert!(rt; first_difference(b"", b"a") == Some(0), "nothing and a");
    assert!(rt; first_difference(b"ab", b"ab") == None, "the same");
    assert!(rt;
        has_prefix(b"ab", b"a") && !has_prefix(b"a", b"ab"),
        "prefixes"
    );
}
