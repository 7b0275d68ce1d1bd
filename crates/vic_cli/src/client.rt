//! The command of a client.

ghost use Rattle.std.specs.Prelude.{◌≡◌, Some, None, map, string_bytes};
ghost use Rattle.vic_ports.specs.InputGives.{TakesAtMost, most_taken};
ghost use Rattle.vic_rules.specs.Client.{at_start};
ghost use Rattle.vic_client.specs.Kept.{StandsFor, kept_group};
ghost use Rattle.vic_cli.specs.Output.{taken_by, given_by, text_bytes};
ghost use Rattle.vic_cli.specs.ClientWords.{ClientWords, client_words, IsClientOf};
ghost use Rattle.vic_cli.specs.Command.{Plans, Ends, IsComplete};
ghost use Rattle.vic_cli.specs.ClientEnds.{client_command};

use crate::client_words::client_of;
use crate::output::{Composed, finish};
use crate::session::compose_session;
use std::alloc::Global;
use vic_client::Client;
use vic_dict::NoMemory;
use vic_ports::{InputRead, Link, Sink, Source, read_input};
use vic_text::Status;

// Reads a script, and does the client's session with it.
fn compose_client<S: Source, L: Link>(
    alloc: Global,
    client: &mut Client,
    source: &mut S,
    link: &mut L,
) -> Composed
    requires { StandsFor client.old at_start }
    ensures plans { (w : ClientWords) → IsClientOf (Some w) (Some client.old)
        → Plans (client_command (Some w) (taken_by S.left S.faults S.ended source.old source.new) (L.told link.old) (L.told link.new))
        result.status (text_bytes result.text) }
    ensures taken { TakesAtMost most_taken (S.left source.old) (S.left source.new) }
{
    match read_input(alloc, source) {
        InputRead::Whole(script) => compose_session(alloc, client, script.as_slice(), link),
        InputRead::TooLong(front) => compose_session(alloc, client, front.as_slice(), link),
        InputRead::Fault => Composed::of(Status::ReadFault),
        InputRead::NoMemory => Composed::of(Status::NoMemory),
    }
}

// What the command is about to write.
fn compose<S: Source, L: Link>(
    alloc: Global,
    words: &[String],
    source: &mut S,
    link: &mut L,
) -> Composed
    ensures plans { Plans (client_command (client_words (map string_bytes words.now))
        (taken_by S.left S.faults S.ended source.old source.new) (L.told link.old) (L.told link.new))
        result.status (text_bytes result.text) }
    ensures unread { client_words (map string_bytes words.now) ≡ None → source.new ≡ source.old }
    ensures taken { TakesAtMost most_taken (S.left source.old) (S.left source.new) }
{
    match client_of(alloc, words) {
        Ok(Some(mut client)) => compose_client(alloc, &mut client, source, link),
        Ok(None) => Composed::of(Status::Usage),
        Err(NoMemory) => Composed::of(Status::NoMemory),
    }
}

/// The command of a client: it reads its script to the end before it says Hello, does each line over the link, leaves, and writes what
/// it composed at the end. A wrong word and a failed read leave the link as it was. It takes memory for the script, for what is
/// printed, and for what [`vic_session::run_lines`] keeps.
pub fn run_client<S: Source, K: Sink, L: Link>(
    alloc: Global,
    words: &[String],
    source: &mut S,
    link: &mut L,
    sink: &mut K,
) -> Status
    ensures ends { Ends (client_command (client_words (map string_bytes words.now))
        (taken_by S.left S.faults S.ended source.old source.new) (L.told link.old) (L.told link.new))
        (given_by K.held K.faults sink.old sink.new) result }
    ensures complete { IsComplete (client_command (client_words (map string_bytes words.now))
        (taken_by S.left S.faults S.ended source.old source.new) (L.told link.old) (L.told link.new))
        (given_by K.held K.faults sink.old sink.new) result }
    ensures unread { client_words (map string_bytes words.now) ≡ None → source.new ≡ source.old }
    ensures taken { TakesAtMost most_taken (S.left source.old) (S.left source.new) }
{
    let composed = compose(alloc, words, source, link);
    finish(sink, composed.status, composed.text.as_slice())
}
