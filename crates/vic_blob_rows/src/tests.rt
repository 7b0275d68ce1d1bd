ghost use Rattle.std.specs.Prelude.{◌≡◌, IfOk, length};

use std::alloc::{AllocError, Global};
use std::test::Fail;
use vic_blob::{BlobFault, Blobs, Kept};

/// The most bytes of a content.
const LONGEST: usize = 8_388_608;

/// The most contents.
const MOST: u32 = 1_048_576;

/// So many of the longest contents have 1,073,741,824 bytes, which is the most.
const MOST_OF_THE_LONGEST: u8 = 128;

/// One of the longest contents: a number, and zeros.
fn longest(alloc: Global, number: u8) -> Result<Vec<u8>, AllocError>
    ensures { IfOk result (λ made. length made.items ≡ 8388608) }
{
    let mut content = vec![in alloc; 0u8; LONGEST]?;
    content[0] = number;
    Ok(content)
}

// The bytes are full. What is kept is found all the same, and a content without bytes needs no room.
#[test]
fn most_bytes(rt: HostRuntime) -> Result<(), Fail> {
    let alloc = rt.alloc();
    let mut blobs = Blobs::new(alloc);
    for number in 0..MOST_OF_THE_LONGEST {
        let kept = blobs.keep(alloc, longest(alloc, number)?.as_slice());
        assert!(rt; kept == Ok(Kept::New), "content {number}");
    }
    assert!(rt; blobs.bytes() == 1_073_741_824);
    let one_more = blobs.keep(alloc, longest(alloc, MOST_OF_THE_LONGEST)?.as_slice());
    assert!(rt; one_more == Err(BlobFault::Full));
    let one_byte = blobs.keep(alloc, b"x");
    assert!(rt; one_byte == Err(BlobFault::Full));
    let last_again = blobs.keep(alloc, longest(alloc, MOST_OF_THE_LONGEST - 1)?.as_slice());
    assert!(rt; last_again == Ok(Kept::Already));
    let empty = blobs.keep(alloc, b"");
    assert!(rt; empty == Ok(Kept::New));
    assert!(rt; blobs.bytes() == 1_073_741_824);
    Ok(())
}

// The number of contents is full. There is room for none, also where it has no bytes.
#[test]
fn most_contents(rt: HostRuntime) -> Result<(), Fail> {
    let alloc = rt.alloc();
    let mut blobs = Blobs::new(alloc);
    for number in 0..MOST {
        let kept = blobs.keep(alloc, number.to_be_bytes().as_slice());
        assert!(rt; kept == Ok(Kept::New), "content {number}");
    }
    assert!(rt; blobs.bytes() == 4_194_304);
    let one_more = blobs.keep(alloc, MOST.to_be_bytes().as_slice());
    assert!(rt; one_more == Err(BlobFault::Full));
    let empty = blobs.keep(alloc, b"");
    assert!(rt; empty == Err(BlobFault::Full));
    let first_again = blobs.keep(alloc, 0u32.to_be_bytes().as_slice());
    assert!(rt; first_again == Ok(Kept::Already));
    assert!(rt; blobs.bytes() == 4_194_304);
    Ok(())
}
