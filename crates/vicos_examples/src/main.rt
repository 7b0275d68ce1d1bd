//! The scripts of `examples/`, for a stored run: each is run by the command of `vicos group`, over a source and a sink in memory.
//!
//! Standard input has them one after the other, each below its head, a line `--- NAME`. Of each the head is printed, what the run
//! prints, and a line `status N`. The program ends with 0, whatever those are; with 5 where the input has no head in front or is
//! too long, and else as the command would. No word of the command line is looked at.
#![tactic(auto)]

ghost use Rattle.std.specs.Prelude.{◌≡◌, ◌<◌, ◌≤◌, ◌++◌, length};

use std::alloc::Global;
use std::process::ExitCode;
use vic_cli::{code_of, finish, run_in_memory};
use vic_dict::{Bytes, NoMemory};
use vic_ports::{
    Calls, InputRead, MemorySink, MemorySource, NeverFails, StdSink, StdSource, read_input,
};
use vic_text::{Status, put_number, split_line};

/// What a head begins with, and no line of a script does.
const HEAD: &[u8] = b"--- ";

/// The first line of a text that isn't empty, without its 0a, and what stands behind it.
fn first_line(text: &[u8]) -> (&[u8], &[u8])
    requires { 0 < length text.now }
    ensures { length result.1.now < length text.now }
{
    match split_line(text) {
        Some((line, others)) => (line, others),
        None => (text, &[]),
    }
}

/// The lines in front of the first head, and what stands from there on.
fn split_at_head(text: &[u8]) -> (&[u8], &[u8])
    ensures whole { result.0.now ++ result.1.now ≡ text.now }
    ensures within { length result.1.now ≤ length text.now }
{
    let mut rest = text;
    while !rest.is_empty() && !rest.starts_with(HEAD) {
        rest = first_line(rest).1;
    }
    text.split_at(text.len() - rest.len())
}

/// Puts the head, what the script prints, and its status.
fn put_run(alloc: Global, head: &[u8], script: &[u8], out: &mut Bytes) -> Result<(), NoMemory> {
    let mut words = Vec::new(alloc);
    words.push(String::from_str(alloc, "group")?)?;
    let script = Bytes::of(alloc, script)?;
    let mut source = NeverFails::new(MemorySource::new(script, Calls::new(alloc)));
    let mut sink = NeverFails::new(MemorySink::new(alloc, Calls::new(alloc)));
    let status = run_in_memory(alloc, words.as_slice(), &mut source, &mut sink);
    out.append(head)?;
    out.push(b'\n')?;
    out.append(sink.inner().held().as_slice())?;
    out.append(b"status ")?;
    put_number(out, u64::from(status.number()))?;
    out.push(b'\n')
}

/// What is printed of all scripts, each of which stands below its head.
fn run_all(alloc: Global, text: &[u8]) -> Result<Bytes, NoMemory> {
    let mut out = Bytes::new(alloc);
    let mut rest = text;
    while !rest.is_empty() {
        let (head, below) = first_line(rest);
        let (script, others) = split_at_head(below);
        put_run(alloc, head, script, &mut out)?;
        rest = others;
    }
    Ok(out)
}

/// Writes what is printed of all scripts, where the first line is a head.
fn write_all(alloc: Global, text: &[u8], sink: &mut StdSink) -> Status {
    if !text.starts_with(HEAD) {
        return finish(sink, Status::BadLine, b"line 1: no head, as `--- NAME`\n");
    }
    match run_all(alloc, text) {
        Ok(out) => finish(sink, Status::Ok, out.as_slice()),
        Err(NoMemory) => finish(sink, Status::NoMemory, Status::NoMemory.line()),
    }
}

fn main(rt: HostRuntime) -> ExitCode {
    let mut source = StdSource::new(rt.stdin());
    let mut sink = StdSink::new(rt.stdout());
    let status = match read_input(rt.alloc(), &mut source) {
        InputRead::Whole(text) => write_all(rt.alloc(), text.as_slice(), &mut sink),
        InputRead::TooLong(_) => finish(&mut sink, Status::BadLine, b"input too long\n"),
        InputRead::Fault => finish(&mut sink, Status::ReadFault, Status::ReadFault.line()),
        InputRead::NoMemory => finish(&mut sink, Status::NoMemory, Status::NoMemory.line()),
    };
    code_of(status)
}
