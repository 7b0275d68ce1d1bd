use super::*;
use std::alloc::Global;
use std::test::*;
use vic_dict::Bytes;

/// Whether this is the payload of a frame.
fn is_payload(taken: &Result<Option<Bytes>, FrameFault>, payload: &[u8]) -> bool {
    match taken {
        Ok(Some(bytes)) => bytes.as_slice() == payload,
        _ => false,
    }
}

fn is_none(taken: &Result<Option<Bytes>, FrameFault>) -> bool {
    matches!(taken, Ok(None))
}

/// What is taken after these pieces, twice, and once more after another piece.
fn faults_after(
    alloc: Global,
    pieces: &[&[u8]],
) -> Result<[Option<FrameFault>; 3], vic_dict::NoMemory> {
    let mut reader = FrameReader::new(alloc);
    for piece in pieces {
        reader.feed(piece)?;
    }
    let first = reader.take_frame(alloc).err();
    let second = reader.take_frame(alloc).err();
    reader.feed(&[0, 0, 0, 1, 0x43])?;
    let third = reader.take_frame(alloc).err();
    Ok([first, second, third])
}

#[test]
fn a_frame_in_two_pieces(rt: HostRuntime) -> Result<(), Fail> {
    let alloc = rt.alloc();
    let mut reader = FrameReader::new(alloc);
    assert!(rt; !reader.mid(), "nothing was fed");
    assert!(rt; is_none(&reader.take_frame(alloc)), "nothing was fed");
    assert!(rt; reader.feed(&[0]).is_ok());
    assert!(rt; is_none(&reader.take_frame(alloc)), "one byte");
    assert!(rt; reader.mid(), "one byte");
    assert!(rt; reader.feed(&[0, 0, 1, 0x43]).is_ok());
    assert!(rt; is_payload(&reader.take_frame(alloc), &[0x43]));
    assert!(rt; is_none(&reader.take_frame(alloc)), "all is taken");
    assert!(rt; !reader.mid(), "all is taken");
    Ok(())
}

#[test]
fn two_frames_in_one_piece(rt: HostRuntime) -> Result<(), Fail> {
    let alloc = rt.alloc();
    let mut reader = FrameReader::new(alloc);
    let piece = [0, 0, 0, 1, 0x43, 0, 0, 0, 2, 0x41, 0x42];
    assert!(rt; reader.feed(&piece).is_ok());
    assert!(rt; is_payload(&reader.take_frame(alloc), &[0x43]));
    assert!(rt; reader.mid(), "the second is left");
    assert!(rt; is_payload(&reader.take_frame(alloc), &[0x41, 0x42]));
    assert!(rt; is_none(&reader.take_frame(alloc)));
    assert!(rt; !reader.mid());
    Ok(())
}

#[test]
fn broken_lengths(rt: HostRuntime) -> Result<(), Fail> {
    let alloc = rt.alloc();
    let cases: [(&[&[u8]], FrameFault); 4] = [
        (&[&[1, 0, 0, 1]], FrameFault::TooLong(16_777_217)),
        (&[&[1, 0], &[0, 1]], FrameFault::TooLong(16_777_217)),
        (&[&[0xff; 4]], FrameFault::TooLong(4_294_967_295)),
        (&[&[0; 4]], FrameFault::Zero),
    ];
    for (pieces, fault) in cases {
        let faults = faults_after(alloc, pieces).ok().ok_or("memory")?;
        assert!(rt; faults == [Some(fault); 3]);
    }
    Ok(())
}

#[test]
fn a_frame_as_written(rt: HostRuntime) -> Result<(), Fail> {
    let made = frame(rt.alloc(), &[0x43]).ok().ok_or("memory")?;
    assert_eq!(rt; made.as_slice(), [0, 0, 0, 1, 0x43].as_slice());
    Ok(())
}

/// Whether the payload is taken whole behind the last piece of 1,000 bytes, and nothing before.
fn comes_whole(alloc: Global, made: &[u8], payload: &[u8]) -> bool {
    let mut reader = FrameReader::new(alloc);
    for piece in made.chunks(1000) {
        if !is_none(&reader.take_frame(alloc)) || reader.feed(piece).is_err() {
            return false;
        }
    }
    is_payload(&reader.take_frame(alloc), payload) && !reader.mid()
}

/// The largest frame, and a Keep of the largest content.
#[test]
fn the_largest_frame(rt: HostRuntime) -> Result<(), Fail> {
    let alloc = rt.alloc();
    let largest = vec![in alloc; 0x43u8; 16_777_216]?;
    let made = frame(alloc, largest.as_slice()).ok().ok_or("memory")?;
    assert!(rt; made.as_slice().starts_with(&[1, 0, 0, 0, 0x43]));
    assert!(rt; comes_whole(alloc, made.as_slice(), largest.as_slice()));
    let mut keep = vec![in alloc; 0x43u8; 8_388_609]?;
    keep[0] = 0x27;
    let kept = frame(alloc, keep.as_slice()).ok().ok_or("memory")?;
    assert!(rt; kept.as_slice().starts_with(&[0, 0x80, 0, 1, 0x27]));
    assert!(rt; comes_whole(alloc, kept.as_slice(), keep.as_slice()));
    Ok(())
}

/// A million bytes wait while 200,000 frames come and go: shifting all at each would move 200 GB.
#[test]
fn many_frames_over_a_long_buffer(rt: HostRuntime) -> Result<(), Fail> {
    let alloc = rt.alloc();
    let small = [0, 0, 0, 1, 0x43];
    let mut reader = FrameReader::new(alloc);
    for _ in 0..200_000 {
        assert!(rt; reader.feed(&small).is_ok());
    }
    for _ in 0..200_000 {
        assert!(rt; reader.feed(&small).is_ok());
        assert!(rt; is_payload(&reader.take_frame(alloc), &[0x43]));
    }
    assert!(rt; reader.mid());
    Ok(())
}
