//! The call of `vicos group` once more, for a stored run that doesn't end with 0: its script has a client take an entry that nobody
//! made, so the run ends with 1.
#![tactic(auto)]

use std::process::ExitCode;
use vic_cli::{code_of, finish, run_group, words_of};
use vic_dict::NoMemory;
use vic_ports::{StdSink, StdSource};
use vic_text::Status;

fn main(rt: HostRuntime) -> ExitCode {
    let mut source = StdSource::new(rt.stdin());
    let mut sink = StdSink::new(rt.stdout());
    let status = match words_of(&rt) {
        Ok(words) => run_group(rt.alloc(), words.as_slice(), &mut source, &mut sink),
        Err(NoMemory) => finish(&mut sink, Status::NoMemory, Status::NoMemory.line()),
    };
    code_of(status)
}
