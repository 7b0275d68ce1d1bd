//! `vicos group` reads a script from standard input, runs it, and writes what it prints to standard output. `vicos drill` runs a group on
//! calls that are drawn from a number, and writes a summary. `vicos client` reads the script of one client, does it over a connection to
//! a server, and writes what it prints. `vicos serve` is such a server, of so many connections; it prints nothing before the last of them
//! has ended. The exit status is the number of the `Status` that `run_group`, `run_drill`, `run_client` or `run_serve` answers, and its
//! contract says what that number stands for. Where there is no memory for the words, the program ends as the command does for want of
//! memory.
#![tactic(auto)]

use std::process::ExitCode;
use vic_cli::{code_of, finish, run_client, run_drill, run_group, run_serve, words_of};
use vic_gate::OpenGate;
use vic_ports::{StdSink, StdSource, TcpDoors, TcpLine};
use vic_text::Status;

/// The word at a place; the empty text where there is none.
fn word_at(words: &[String], place: usize) -> &str {
    match words.get(place) {
        Some(word) => word.as_str(),
        None => "",
    }
}

/// Does the command that the first word names; any other first word goes to the command on a script. The link or the doors
/// are opened from the word behind the command's own, before the words are looked at: what fails there shows at their first call.
fn main(rt: HostRuntime) -> ExitCode {
    let alloc = rt.alloc();
    let mut source = StdSource::new(rt.stdin());
    let mut sink = StdSink::new(rt.stdout());
    let Ok(given) = words_of(&rt) else {
        return code_of(finish(&mut sink, Status::NoMemory, Status::NoMemory.line()));
    };
    let words = given.as_slice();
    let command = word_at(words, 0);
    let address = word_at(words, 1);
    let status = if command == "drill" {
        run_drill(alloc, words, &mut sink)
    } else if command == "client" {
        let mut link = TcpLine::open(&rt, address);
        run_client(alloc, words, &mut source, &mut link, &mut sink)
    } else if command == "serve" {
        let mut doors = TcpDoors::open(&rt, address);
        let mut kept = None;
        run_serve(
            &rt, alloc, words, &mut doors, &OpenGate, &mut sink, &mut kept,
        )
    } else {
        run_group(alloc, words, &mut source, &mut sink)
    };
    code_of(status)
}
