//! The command on a script: it reads the script, runs it and writes what it prints.

ghost use Rattle.std.specs.Prelude.{◌≡◌, ◌≢◌, ◌⊎◌, ℕ, List, Some, true, false, drop, map, string_bytes};
ghost use Rattle.vic_ports.specs.InputGives.{TakesAtMost, most_taken};
ghost use Rattle.vic_cli.specs.Words.{is_group};
ghost use Rattle.vic_cli.specs.Output.{taken_of, taken_by, given_of, given_by, text_bytes};
ghost use Rattle.vic_cli.specs.Command.{Plans, Ends, IsComplete};
ghost use Rattle.vic_cli.specs.GroupEnds.{group_command, IsAsClaimed, TellsRun, run_status};

use crate::output::{Composed, Text, finish};
use std::alloc::Global;
use vic_group::play::{End, play};
use vic_ports::{InputRead, MemorySink, MemorySource, NeverFails, Sink, Source, read_input};
use vic_text::Status;
use vic_text::word::is_name;

/// Whether the words name the command, and nothing else.
fn is_right(words: &[String]) -> bool
    ensures { result ≡ is_group (map string_bytes words.now) }
{
    match words {
        [word] => is_name(word.as_bytes(), b"group"),
        _ => false,
    }
}

/// Runs a script, and answers what it prints.
fn compose_run(alloc: Global, script: &[u8]) -> Composed
    ensures { TellsRun script.now result.status (text_bytes result.text) }
{
    match play(alloc, script) {
        Ok(played) => Composed {
            status: match played.end {
                End::Whole => Status::Ok,
                End::Forged => Status::TagsNotMade,
                End::Bad => Status::BadLine,
            },
            text: Text::Made(played.text),
        },
        Err(_) => Composed::of(Status::NoMemory),
    }
}

/// Reads a script and runs it, where the words are right; else nothing is read.
fn compose<S: Source>(alloc: Global, right: bool, source: &mut S) -> Composed
    ensures plans { Plans (group_command right (taken_by S.left S.faults S.ended source.old source.new))
        result.status (text_bytes result.text) }
    ensures unread { right ≡ false → source.new ≡ source.old }
    ensures taken { TakesAtMost most_taken (S.left source.old) (S.left source.new) }
{
    if !right {
        return Composed::of(Status::Usage);
    }
    match read_input(alloc, source) {
        InputRead::Whole(script) => compose_run(alloc, script.as_slice()),
        InputRead::TooLong(front) => compose_run(alloc, front.as_slice()),
        InputRead::Fault => Composed::of(Status::ReadFault),
        InputRead::NoMemory => Composed::of(Status::NoMemory),
    }
}

/// The command on a script: reads it to its end, runs it, and writes what it prints.
///
/// It takes memory for the script, for what the script prints, and for the world in which its lines happen. What it claims of a
/// script holds of every script, whatever the source tells of itself.
pub fn run_group<S: Source, K: Sink>(
    alloc: Global,
    words: &[String],
    source: &mut S,
    sink: &mut K,
) -> Status
    ensures ends { Ends (group_command (is_group (map string_bytes words.now))
        (taken_by S.left S.faults S.ended source.old source.new))
        (given_by K.held K.faults sink.old sink.new) result }
    ensures claim { (script : List ℕ) → IsAsClaimed script }
    ensures complete { IsComplete (group_command (is_group (map string_bytes words.now))
        (taken_by S.left S.faults S.ended source.old source.new))
        (given_by K.held K.faults sink.old sink.new) result }
    ensures unread { is_group (map string_bytes words.now) ≡ false → source.new ≡ source.old }
    ensures taken { TakesAtMost most_taken (S.left source.old) (S.left source.new) }
{
    let composed = compose(alloc, is_right(words), source);
    finish(sink, composed.status, composed.text.as_slice())
}

/// The command on a script in memory: over a source and a sink that never fail, no fault is answered.
pub fn run_in_memory(
    alloc: Global,
    words: &[String],
    source: &mut NeverFails<MemorySource>,
    sink: &mut NeverFails<MemorySink>,
) -> Status
    ensures ends { Ends (group_command (is_group (map string_bytes words.now))
        (taken_of (Some (drop source.old.inner.taken source.old.inner.bytes))
        (Some (drop source.new.inner.taken source.new.inner.bytes)) 0 0 source.new.inner.ended))
        (given_of (Some sink.old.inner.bytes) (Some sink.new.inner.bytes) 0 0) result }
    ensures claim { IsAsClaimed (drop source.old.inner.taken source.old.inner.bytes) }
    ensures complete { is_group (map string_bytes words.now) ≡ true
        → (result ≡ run_status (drop source.old.inner.taken source.old.inner.bytes))
        ⊎ (result ≡ Status.NoMemory) }
    ensures reads { result ≢ Status.ReadFault }
    ensures writes { result ≢ Status.WriteFault }
{
    run_group(alloc, words, source, sink)
}
