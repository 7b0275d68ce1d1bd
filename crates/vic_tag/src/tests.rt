use crate::{GroupKey, KeyFault};
use std::test::Fail;
use vic_wire::Digest32;

fn digest(text: &str) -> Result<Digest32, Fail> {
    Ok(Digest32 {
        bytes: <[u8; 32] as hex::FromHex>::from_hex(text)?,
    })
}

// The first two cases of RFC 4231.
#[test]
fn tags(rt: HostRuntime) -> Result<(), Fail> {
    let cases = [
        (
            "0b0b0b0b0b0b0b0b0b0b0b0b0b0b0b0b0b0b0b0b",
            "Hi There",
            "b0344c61d8db38535ca8afceaf0bf12b881dc200c9833da726e9376c2e32cff7",
        ),
        (
            "4a656665",
            "what do ya want for nothing?",
            "5bdcc146bf60754e6a042426089575c75a003f089d2739839dec58b964ec3843",
        ),
    ];
    for (key, text, tag) in cases.iter() {
        let key = GroupKey::from_hex(rt.alloc(), key)?;
        let right = digest(tag)?;
        assert!(rt; key.tag(text.as_bytes()) == right);
        assert!(rt; key.holds(text.as_bytes(), &right));
        let copied = key.copy(rt.alloc())?;
        assert!(rt; !copied.holds(b"Hi there", &right));
        assert_eq!(rt; copied.as_slice(), key.as_slice());
    }
    Ok(())
}

#[test]
fn faults(rt: HostRuntime) {
    let cases = [
        ("", KeyFault::Length),
        ("abc", KeyFault::Length),
        ("0g", KeyFault::Digit(1)),
        ("g", KeyFault::Length),
        ("aé", KeyFault::Digit(1)),
        ("éa0", KeyFault::Length),
        ("éaé0", KeyFault::Digit(0)),
    ];
    for (text, fault) in cases.iter() {
        assert!(rt; GroupKey::from_hex(rt.alloc(), text).err() == Some(*fault));
    }
}
