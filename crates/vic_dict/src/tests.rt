use super::*;
use std::alloc::Global;
use std::test::*;

fn done(alloc: Global, dict: &mut PlainDict, op: Op) -> Result<Answer, NoMemory> {
    if op.fits() {
        dict.do_op(alloc, &op)
    } else {
        Err(NoMemory)
    }
}

fn put(alloc: Global, dict: &mut PlainDict, key: &[u8], value: &[u8]) -> Result<Answer, NoMemory> {
    let op = Op::Put(Bytes::of(alloc, key)?, Bytes::of(alloc, value)?);
    done(alloc, dict, op)
}

fn is_found(answer: &Answer, value: &[u8]) -> bool {
    match answer {
        Answer::Found(found) => found.as_slice() == value,
        _ => false,
    }
}

fn are_two_names(answer: &Answer, first: &[u8], second: &[u8]) -> bool {
    match answer {
        Answer::Names(names) => match names.as_slice() {
            [a, b] => a.as_slice() == first && b.as_slice() == second,
            _ => false,
        },
        _ => false,
    }
}

/// A dictionary with `ab`, `a` and `b`, the first put twice.
fn three(alloc: Global) -> Result<PlainDict, NoMemory> {
    let mut dict = PlainDict::new(alloc);
    put(alloc, &mut dict, b"ab", b"1")?;
    put(alloc, &mut dict, b"b", b"2")?;
    put(alloc, &mut dict, b"a", b"x")?;
    put(alloc, &mut dict, b"ab", b"3")?;
    dict.copy(alloc)
}

#[test]
fn look_ups(rt: HostRuntime) -> Result<(), Fail> {
    let alloc = rt.alloc();
    let mut dict = three(alloc).ok().ok_or("memory")?;
    assert_eq!(rt; dict.len(), 3);
    let key = Bytes::of(alloc, b"a").ok().ok_or("memory")?;
    let answer = done(alloc, &mut dict, Op::Get(key)).ok().ok_or("memory")?;
    assert!(rt; is_found(&answer, b"x"), "a is x");
    let key = Bytes::of(alloc, b"ab").ok().ok_or("memory")?;
    let answer = done(alloc, &mut dict, Op::Get(key)).ok().ok_or("memory")?;
    assert!(rt; is_found(&answer, b"3"), "ab is 3");
    let prefix = Bytes::of(alloc, b"a").ok().ok_or("memory")?;
    let answer = done(alloc, &mut dict, Op::List(prefix))
        .ok()
        .ok_or("memory")?;
    assert!(rt; are_two_names(&answer, b"a", b"ab"), "a and ab");
    Ok(())
}

#[test]
fn removals(rt: HostRuntime) -> Result<(), Fail> {
    let alloc = rt.alloc();
    let mut dict = three(alloc).ok().ok_or("memory")?;
    let key = Bytes::of(alloc, b"b").ok().ok_or("memory")?;
    let answer = done(alloc, &mut dict, Op::Del(key)).ok().ok_or("memory")?;
    assert!(rt; matches!(answer, Answer::Removed));
    let key = Bytes::of(alloc, b"b").ok().ok_or("memory")?;
    let answer = done(alloc, &mut dict, Op::Del(key)).ok().ok_or("memory")?;
    assert!(rt; matches!(answer, Answer::Absent));
    let key = Bytes::of(alloc, b"b").ok().ok_or("memory")?;
    let answer = done(alloc, &mut dict, Op::Get(key)).ok().ok_or("memory")?;
    assert!(rt; matches!(answer, Answer::NotFound));
    assert_eq!(rt; dict.len(), 2);
    Ok(())
}

#[test]
fn a_put_is_found(rt: HostRuntime) -> Result<(), Fail> {
    let alloc = rt.alloc();
    let mut dict = PlainDict::new(alloc);
    let answer = put(alloc, &mut dict, b"a", b"x").ok().ok_or("memory")?;
    assert!(rt; matches!(answer, Answer::Stored), "a is stored");
    let key = Bytes::of(alloc, b"a").ok().ok_or("memory")?;
    let answer = done(alloc, &mut dict, Op::Get(key)).ok().ok_or("memory")?;
    assert!(rt; is_found(&answer, b"x"), "a is x");
    Ok(())
}
