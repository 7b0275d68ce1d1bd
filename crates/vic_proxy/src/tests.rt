use super::*;
use std::test::Fail;

// SHA-256 of 06 and `hello`, as `sha256sum` prints it, and the length 5 in four bytes.
const REFERENCE: [u8; 36] = [
    0x31, 0x4a, 0xb0, 0x41, 0xde, 0xca, 0x3c, 0xb4, 0x2b, 0xe7, 0x4b, 0xc9, 0x91, 0x13, 0x25, 0xb3,
    0x90, 0x43, 0x64, 0x59, 0x0e, 0xb4, 0x60, 0x0b, 0x87, 0x5d, 0x64, 0x08, 0x9f, 0x69, 0xe0, 0x77,
    0, 0, 0, 5,
];

// What a step does, in a word.
fn told(next: &Next) -> &'static str {
    match next {
        Next::Keep(_) => "keep",
        Next::Call(Op::Put(_, value)) if value.as_slice() == REFERENCE.as_slice() => "put",
        Next::Call(_) => "call",
        Next::Fetch(_, 5) => "fetch",
        Next::Fetch(_, _) => "fetch another",
        Next::Return(ObjectOutcome::Stored) => "stored",
        Next::Return(ObjectOutcome::Content(content)) if content.len() == 5 => "content",
        Next::Return(ObjectOutcome::Missing) => "missing",
        Next::Return(ObjectOutcome::Refused(2)) => "refused",
        Next::Return(_) => "other",
        Next::Bad => "bad",
    }
}

// A store of `hello` under `f`.
fn store(alloc: Global) -> Result<(Proxy, Next), NoMemory> {
    let name = Bytes::of(alloc, b"f")?;
    let content = Bytes::of(alloc, b"hello")?;
    Proxy::begin(alloc, &ObjectCall::Store(name, content))
}

// A load of `f`.
fn load(alloc: Global) -> Result<(Proxy, Next), NoMemory> {
    let name = Bytes::of(alloc, b"f")?;
    Proxy::begin(alloc, &ObjectCall::Load(name))
}

// A load of `f` for which this reference was found.
fn found(alloc: Global) -> Result<(Proxy, Next), NoMemory> {
    let (mut proxy, _) = load(alloc)?;
    let value = Bytes::of(alloc, REFERENCE.as_slice())?;
    let next = proxy.outcome(alloc, &Outcome::Done(Answer::Found(value)))?;
    Ok((proxy, next))
}

// A store keeps its content, puts its reference, and returns; out of turn it is bad.
#[test]
fn stores(rt: HostRuntime) -> Result<(), Fail> {
    let alloc = rt.alloc();
    let (mut proxy, first) = store(alloc)?;
    assert!(rt; told(&first) == "keep");
    let early = proxy.outcome(alloc, &Outcome::Done(Answer::Stored))?;
    assert!(rt; told(&early) == "bad", "nothing was called yet");
    let second = proxy.kept(alloc)?;
    assert!(rt; told(&second) == "put");
    let last = proxy.outcome(alloc, &Outcome::Done(Answer::Stored))?;
    assert!(rt; told(&last) == "stored");
    assert!(rt; told(&proxy.refused(2)) == "bad", "it is over");
    Ok(())
}

// A load returns the content that its reference names, and no other.
#[test]
fn loads(rt: HostRuntime) -> Result<(), Fail> {
    let alloc = rt.alloc();
    for (content, want) in [
        (b"hello".as_slice(), "content"),
        (b"hellO".as_slice(), "bad"),
        (b"hello!".as_slice(), "bad"),
        (b"".as_slice(), "bad"),
    ] {
        let (mut proxy, next) = found(alloc)?;
        assert!(rt; told(&next) == "fetch", "{want}");
        let last = proxy.content(alloc, Some(content))?;
        assert!(rt; told(&last) == want, "{want}");
    }
    let (mut absent, _) = found(alloc)?;
    assert!(rt; told(&absent.content(alloc, None)?) == "bad", "absent");
    Ok(())
}

// A name that isn't there, and a refusal.
#[test]
fn others(rt: HostRuntime) -> Result<(), Fail> {
    let alloc = rt.alloc();
    let (mut proxy, first) = load(alloc)?;
    assert!(rt; told(&first) == "call");
    let missing = proxy.outcome(alloc, &Outcome::Done(Answer::NotFound))?;
    assert!(rt; told(&missing) == "missing");
    let (mut other, _) = store(alloc)?;
    assert!(rt; told(&other.refused(2)) == "refused");
    Ok(())
}

// A call that is told by its place stands where one that began stands; which calls are within the limits.
#[test]
fn places(rt: HostRuntime) -> Result<(), Fail> {
    let alloc = rt.alloc();
    let name = Bytes::of(alloc, b"f")?;
    let mut keeping = Proxy::keeping(alloc, &name, b"hello")?;
    assert!(rt; matches!(keeping.phase(), Phase::Keeping(_, _, 5)));
    assert!(rt; told(&keeping.kept(alloc)?) == "put");
    assert!(rt; matches!(keeping.phase(), Phase::Calling));
    let mut calling = Proxy::calling();
    assert!(rt; told(&calling.outcome(alloc, &Outcome::Done(Answer::Stored))?) == "stored");
    assert!(rt; matches!(calling.phase(), Phase::Closed));
    assert!(rt; told(&Proxy::closed().refused(2)) == "bad");
    let call = ObjectCall::Load(name);
    are_bytes(&call);
    assert!(rt; fits(&call) && !fits(&ObjectCall::Load(Bytes::new(alloc))));
    let hash = vic_hash::content(b"hello");
    assert!(rt; reference(alloc, &hash, 5)?.as_slice() == REFERENCE.as_slice());
    Ok(())
}
