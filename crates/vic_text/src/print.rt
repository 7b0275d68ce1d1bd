//! Printing bytes, operations, outcomes of both kinds of calls, and bad lines.

ghost use Rattle.std.specs.Prelude.{◌≡◌, ◌<◌, ◌++◌, ◌∷◌, length, OnOk, OnErr, IfOk, if◌then◌else◌, codes, take};
ghost use Rattle.hex.specs.Hex.{encode_lower};
ghost use Rattle.std.specs.List.{flat_map, list_all};
ghost use Rattle.std.specs.Fmt.{decimal};
ghost use Rattle.vic_script.specs.Words.{is_plain as plain_test, bytes_word, space, op_words, answer_words, outcome_words, object_words};
ghost use Rattle.vic_script.specs.Print.{bad_line};

use crate::bad::BadKind;
use crate::word::are_plain;
use std::alloc::Global;
use vic_dict::{Answer, Bytes, Names, NoMemory, Op, Outcome};
use vic_rules::ObjectOutcome;

/// The operation, as in a line that calls it.
pub fn op_text(alloc: Global, op: &Op) -> Result<Bytes, NoMemory>
    ensures { IfOk result (λ made. made ≡ op_words op.now) }
{
    let mut text = Bytes::new(alloc);
    match op {
        Op::Put(key, value) => {
            put_named(&mut text, alloc, b"put ", key)?;
            put_named(&mut text, alloc, b" ", value)?;
        }
        Op::Get(key) => put_named(&mut text, alloc, b"get ", key)?,
        Op::Del(key) => put_named(&mut text, alloc, b"del ", key)?,
        Op::List(prefix) => put_named(&mut text, alloc, b"list ", prefix)?,
    }
    Ok(text)
}

/// The outcome, as it is printed.
pub fn outcome_text(alloc: Global, outcome: &Outcome) -> Result<Bytes, NoMemory>
    ensures { IfOk result (λ made. made ≡ outcome_words outcome.now) }
{
    let mut text = Bytes::new(alloc);
    match outcome {
        Outcome::Done(answer) => {
            text.append(b"done ")?;
            put_answer(&mut text, alloc, answer)?;
        }
        Outcome::Aborted(position) => put_numbered(&mut text, b"aborted ", *position)?,
        Outcome::Refused(reason) => { put_numbered(&mut text, b"refused ", u32::from(*reason))? }
        Outcome::Halted(check) => put_numbered(&mut text, b"halted ", u32::from(*check))?,
    }
    Ok(text)
}

/// What a call on objects returned, as it is printed: of a content its length in bytes and the first 32 of them, or all where it
/// has fewer. The cost doesn't grow with the content.
pub fn object_text(alloc: Global, outcome: &ObjectOutcome) -> Result<Bytes, NoMemory>
    ensures { IfOk result (λ made. made ≡ object_words outcome.now) }
{
    let mut text = Bytes::new(alloc);
    match outcome {
        ObjectOutcome::Stored => text.append(b"object stored")?,
        ObjectOutcome::Content(content) => put_content(&mut text, alloc, content.as_slice())?,
        ObjectOutcome::Missing => text.append(b"object missing")?,
        ObjectOutcome::Removed => text.append(b"object removed")?,
        ObjectOutcome::Absent => text.append(b"object absent")?,
        ObjectOutcome::Names(names) => {
            text.append(b"object names")?;
            put_names(&mut text, alloc, names)?;
        }
        ObjectOutcome::Aborted(position) => {
            put_numbered(&mut text, b"object aborted ", *position)?
        }
        ObjectOutcome::Refused(reason) => {
            put_numbered(&mut text, b"object refused ", u32::from(*reason))?
        }
    }
    Ok(text)
}

/// Appends a number in decimal. It takes memory for its digits alone, where `out` has too little.
pub fn put_number(out: &mut Bytes, number: u64) -> Result<(), NoMemory>
    ensures ok { OnOk result (out.new ≡ out.old ++ decimal number) }
    ensures err { OnErr result (out.new ≡ out.old) }
{
    let mut digits = itoa::Buffer::new();
    out.append(digits.format(number).as_bytes())
}

/// Appends bytes as a byte word.
pub fn put_word(out: &mut Bytes, alloc: Global, bytes: &[u8]) -> Result<(), NoMemory>
    ensures ok { OnOk result (out.new ≡ out.old ++ bytes_word bytes.now) }
    ensures err { OnErr result (out.new ≡ out.old) }
{
    match bytes {
        [] => out.append(b"%"),
        [_, ..] => put_some(out, alloc, bytes),
    }
}

fn put_some(out: &mut Bytes, alloc: Global, bytes: &[u8]) -> Result<(), NoMemory>
    requires { 0 < length bytes.now }
    ensures ok { OnOk result (out.new ≡ out.old ++ (if list_all plain_test bytes.now then bytes.now else 37 ∷ encode_lower bytes.now)) }
    ensures err { OnErr result (out.new ≡ out.old) }
{
    if are_plain(bytes) {
        return out.append(bytes);
    }
    put_hex(out, alloc, bytes)
}

fn put_hex(out: &mut Bytes, alloc: Global, bytes: &[u8]) -> Result<(), NoMemory>
    ensures ok { OnOk result (out.new ≡ out.old ++ 37 ∷ encode_lower bytes.now) }
    ensures err { OnErr result (out.new ≡ out.old) }
{
    let digits = hex::encode(alloc, bytes)?;
    let mut word = Bytes::new(alloc);
    word.append(b"%")?;
    word.append(digits.as_bytes())?;
    out.append(word.as_slice())
}

/// Appends an operation, as in a line that calls it.
pub fn put_op(out: &mut Bytes, alloc: Global, op: &Op) -> Result<(), NoMemory>
    ensures ok { OnOk result (out.new ≡ out.old ++ op_words op.now) }
    ensures err { OnErr result (out.new ≡ out.old) }
{
    let text = op_text(alloc, op)?;
    out.append(text.as_slice())
}

/// Appends an outcome.
pub fn put_outcome(out: &mut Bytes, alloc: Global, outcome: &Outcome) -> Result<(), NoMemory>
    ensures ok { OnOk result (out.new ≡ out.old ++ outcome_words outcome.now) }
    ensures err { OnErr result (out.new ≡ out.old) }
{
    let text = outcome_text(alloc, outcome)?;
    out.append(text.as_slice())
}

/// Appends what a call on objects returned.
pub fn put_object(out: &mut Bytes, alloc: Global, outcome: &ObjectOutcome) -> Result<(), NoMemory>
    ensures ok { OnOk result (out.new ≡ out.old ++ object_words outcome.now) }
    ensures err { OnErr result (out.new ≡ out.old) }
{
    let text = object_text(alloc, outcome)?;
    out.append(text.as_slice())
}

/// Appends the line that tells of a bad line: its number, from 1 on, and the text of its kind, 1 to 7.
pub fn put_bad_line(out: &mut Bytes, alloc: Global, number: u32, kind: u8) -> Result<(), NoMemory>
    ensures ok { OnOk result (out.new ≡ out.old ++ bad_line (record { number = number; kind = kind })) }
    ensures err { OnErr result (out.new ≡ out.old) }
{
    let text = bad_line_text(alloc, number, kind)?;
    out.append(text.as_slice())
}

fn bad_line_text(alloc: Global, number: u32, kind: u8) -> Result<Bytes, NoMemory>
    ensures { IfOk result (λ made. made ≡ bad_line (record { number = number; kind = kind })) }
{
    let mut text = Bytes::new(alloc);
    put_numbered(&mut text, b"line ", number)?;
    text.append(b": ")?;
    text.append(BadKind::of_number(kind).text())?;
    text.append(b"\n")?;
    Ok(text)
}

// ---- parts of a text that is being made; where memory runs out, some of the part may stand there

fn put_named(out: &mut Bytes, alloc: Global, name: &[u8], bytes: &Bytes) -> Result<(), NoMemory>
    ensures ok { OnOk result (out.new ≡ out.old ++ name.now ++ bytes_word bytes.now) }
{
    out.append(name)?;
    put_word(out, alloc, bytes.as_slice())
}

fn put_numbered(out: &mut Bytes, name: &[u8], number: u32) -> Result<(), NoMemory>
    ensures ok { OnOk result (out.new ≡ out.old ++ name.now ++ decimal number) }
{
    out.append(name)?;
    put_number(out, u64::from(number))
}

fn put_answer(out: &mut Bytes, alloc: Global, answer: &Answer) -> Result<(), NoMemory>
    ensures ok { OnOk result (out.new ≡ out.old ++ answer_words answer.now) }
{
    match answer {
        Answer::Stored => out.append(b"stored"),
        Answer::Found(value) => put_named(out, alloc, b"value ", value),
        Answer::NotFound => out.append(b"none"),
        Answer::Removed => out.append(b"removed"),
        Answer::Absent => out.append(b"absent"),
        Answer::Names(names) => {
            out.append(b"names")?;
            put_names(out, alloc, names)
        }
    }
}

fn put_content(out: &mut Bytes, alloc: Global, content: &[u8]) -> Result<(), NoMemory>
    ensures ok { OnOk result (out.new ≡ out.old ++ codes "object content " ++ decimal (length content.now) ++ space ++ bytes_word (take 32 content.now)) }
{
    let length = content.len().to_string(alloc)?;
    out.append(b"object content ")?;
    out.append(length.as_bytes())?;
    out.append(b" ")?;
    put_word(out, alloc, front(content))
}

/// The first 32 bytes, or all where there are fewer.
fn front(content: &[u8]) -> &[u8]
    ensures { result.now ≡ take 32 content.now }
{
    if content.len() <= 32 {
        content
    } else {
        &content[..32]
    }
}

fn put_names(out: &mut Bytes, alloc: Global, names: &Names) -> Result<(), NoMemory>
    ensures ok { OnOk result (out.new ≡ out.old ++ flat_map (λ k. space ++ bytes_word k) names.now) }
{
    for name in names.as_slice() {
        put_named(out, alloc, b" ", name)?;
    }
    Ok(())
}
