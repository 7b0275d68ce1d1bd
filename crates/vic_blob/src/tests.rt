use super::*;
use std::test::Fail;

// Contents are kept once, found under their hashes, counted, and copied.
#[test]
fn contents(rt: HostRuntime) -> Result<(), Fail> {
    let alloc = rt.alloc();
    let mut blobs = Blobs::new(alloc);
    let hello = vic_hash::content(b"hello");
    assert!(rt;
        blobs.fetch(&hello).is_none() && blobs.bytes() == 0,
        "nothing is kept"
    );
    for (content, want, bytes) in [
        (b"hello".as_slice(), Kept::New, 5),
        (b"".as_slice(), Kept::New, 5),
        (b"hello".as_slice(), Kept::Already, 5),
        (b"hell".as_slice(), Kept::New, 9),
        (b"".as_slice(), Kept::Already, 9),
    ] {
        let got = blobs.keep(alloc, content);
        assert!(rt; got == Ok(want), "{bytes} bytes");
        assert!(rt; blobs.bytes() == bytes, "{bytes} bytes");
        match blobs.fetch(&vic_hash::content(content)) {
            Some(found) => assert!(rt; found.as_slice() == content, "{bytes} bytes"),
            None => assert!(rt; false, "{bytes} bytes: kept, and not found"),
        }
    }
    let mut other = blobs.copy(alloc)?;
    assert!(rt;
        other.keep(alloc, b"hello") == Ok(Kept::Already),
        "a copy has the contents"
    );
    assert!(rt;
        other.keep(alloc, b"x") == Ok(Kept::New),
        "a copy keeps more"
    );
    assert!(rt;
        other.bytes() == 10 && blobs.bytes() == 9,
        "each for itself"
    );
    assert!(rt;
        blobs.fetch(&vic_hash::content(b"x")).is_none(),
        "the first is as it was"
    );
    Ok(())
}
