use super::*;
use std::alloc::Global;
use std::test::*;
use vic_dict::{Bytes, Entry, NoMemory, Op};
use vic_wire::Digest32;

/// Put `a` = `x`, as call 258 of client 3, and fields of each other kind.
fn written(alloc: Global) -> Result<Bytes, NoMemory> {
    let op = Op::Put(Bytes::of(alloc, b"a")?, Bytes::of(alloc, b"x")?);
    let entry = Entry {
        client: 3,
        seq: 258,
        op,
    };
    let mut out = Bytes::new(alloc);
    put_u8(&mut out, 7)?;
    put_u16(&mut out, 513)?;
    put_u32(&mut out, 66051)?;
    put_op(&mut out, &entry.op)?;
    put_entry(&mut out, &entry)?;
    put_digest(&mut out, &Digest32 { bytes: [9; 32] })?;
    put_bytes(&mut out, b"hi")?;
    Ok(out)
}

const WRITTEN: [u8; 21] = [
    7, 2, 1, 0, 1, 2, 3, 1, 1, 0x61, 1, 0x78, 3, 0, 0, 1, 2, 1, 1, 0x61, 1,
];

#[test]
fn fields_as_written(rt: HostRuntime) -> Result<(), Fail> {
    let text = written(rt.alloc()).ok().ok_or("memory")?;
    let bytes = text.as_slice();
    assert_eq!(rt; bytes.len(), 56);
    assert!(rt;
        bytes.starts_with(&WRITTEN),
        "the numbers and the operation"
    );
    assert!(rt;
        bytes.ends_with(&[9, 9, 0x68, 0x69]),
        "the digest and the bytes"
    );
    Ok(())
}

/// Put `a` = `x`, and the same as call 1 of client 1.
fn one_put(alloc: Global) -> Result<(Bytes, Bytes), NoMemory> {
    let op = Op::Put(Bytes::of(alloc, b"a")?, Bytes::of(alloc, b"x")?);
    let entry = Entry {
        client: 1,
        seq: 1,
        op,
    };
    let mut op = Bytes::new(alloc);
    put_op(&mut op, &entry.op)?;
    let mut text = Bytes::new(alloc);
    put_entry(&mut text, &entry)?;
    Ok((op, text))
}

#[test]
fn one_put_as_written(rt: HostRuntime) -> Result<(), Fail> {
    let (op, entry) = one_put(rt.alloc()).ok().ok_or("memory")?;
    assert_eq!(rt; op.as_slice(), b"\x01\x01\x61\x01\x78".as_slice());
    assert_eq!(rt;
        entry.as_slice(),
        b"\x01\x00\x00\x00\x01\x01\x01\x61\x01\x78".as_slice()
    );
    Ok(())
}

#[test]
fn fields_as_read(rt: HostRuntime) -> Result<(), Fail> {
    let text = written(rt.alloc()).ok().ok_or("memory")?;
    let mut cut = Cut::new(text.as_slice());
    assert!(rt; cut.take_u8() == Ok(7));
    assert!(rt; cut.take_u16() == Ok(513));
    assert!(rt; cut.take_u32() == Ok(66051));
    assert!(rt; matches!(cut.take_op(rt.alloc()), Ok(Op::Put(_, _))));
    let entry = cut.take_entry(rt.alloc()).ok().ok_or("an entry")?;
    assert_eq!(rt; entry.client, 3);
    assert_eq!(rt; entry.seq, 258);
    assert!(rt; cut.take_digest() == Ok(Digest32 { bytes: [9; 32] }));
    assert!(rt; matches!(cut.take_bytes(3), Err(CutFault::Short)));
    assert!(rt; matches!(cut.take_bytes(1), Ok(_)));
    assert_eq!(rt; cut.rest(), b"i".as_slice());
    Ok(())
}

#[test]
fn faults(rt: HostRuntime) {
    let entries: [(&[u8], CutFault); 7] = [
        // The client is 0, and nothing follows: the fault at the earlier byte.
        (&[0], CutFault::Value),
        (&[65, 0, 0, 0, 1, 2, 1, 0x61], CutFault::Value),
        (&[64, 0, 0, 0, 0], CutFault::Value),
        (&[64, 0, 0, 0], CutFault::Short),
        (&[64, 0, 0, 0, 1, 5], CutFault::Value),
        (&[64, 0, 0, 0, 1, 2, 0], CutFault::Value),
        (&[64, 0, 0, 0, 1, 1, 1, 0x61, 65], CutFault::Value),
    ];
    for (bytes, fault) in entries {
        let mut cut = Cut::new(bytes);
        let taken = cut.take_entry(rt.alloc());
        assert!(rt; taken.err() == Some(fault));
        assert_eq!(rt; cut.rest(), bytes);
    }
}
