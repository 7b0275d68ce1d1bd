//! The command of a drill: it runs the drill that the words ask for, and prints its summary.

ghost use Rattle.std.specs.Prelude.{◌≡◌, ◌<◌, ◌≤◌, IfSome, map, string_bytes};
ghost use Rattle.vic_dict.specs.declared.limits.TheConstants.{MOST_CLIENTS};
ghost use Rattle.vic_cli.specs.Output.{given_by, text_bytes};
ghost use Rattle.vic_cli.specs.Command.{Plans, Ends, IsComplete};
ghost use Rattle.vic_cli.specs.Drilling.{drill_words, drill_command, IsHonestFor};

use crate::arguments::{calls_number, small_number};
use crate::output::{Composed, Text, finish};
use std::alloc::Global;
use vic_ports::Sink;
use vic_run_drill::summary_of;
use vic_text::Status;
use vic_text::word::{exact_number_of, is_name};

/// What the words ask for.
#[derive(Clone, Copy, Debug)]
pub struct DrillWords {
    /// What all is drawn from.
    pub number: u32,
    /// 1 to 64.
    pub clients: u8,
    /// 1 to 100,000.
    pub calls: u32,
}

// What the words ask for, where they are right.
fn read_words(words: &[String]) -> Option<DrillWords>
    ensures is { result ≡ drill_words (map string_bytes words.now) }
    ensures clients { IfSome result (λ a. (0 < a.clients) × (a.clients ≤ MOST_CLIENTS)) }
    ensures calls { IfSome result (λ a. a.calls ≤ 100000) }
{
    let [name, number, clients, calls] = words else {
        return None;
    };
    if !is_name(name.as_bytes(), b"drill") {
        return None;
    }
    Some(DrillWords {
        number: exact_number_of(number.as_bytes())?,
        clients: small_number(clients.as_bytes())?,
        calls: calls_number(calls.as_bytes())?,
    })
}

// Runs the drill that was asked for, and composes its summary.
fn compose(alloc: Global, words: &[String]) -> Composed
    ensures plans { Plans (drill_command (drill_words (map string_bytes words.now)))
        result.status (text_bytes result.text) }
    ensures honest { IfSome (drill_words (map string_bytes words.now)) IsHonestFor }
{
    let Some(asked) = read_words(words) else {
        return Composed::of(Status::Usage);
    };
    match summary_of(alloc, asked.number, asked.clients, asked.calls) {
        Ok(text) => Composed {
            status: Status::Ok,
            text: Text::Made(text),
        },
        Err(_) => Composed::of(Status::NoMemory),
    }
}

/// The command of a drill: runs the drill of a number, to its end, and writes its summary. Equal words give equal summaries.
///
/// It takes memory for what the drill's clients and its server keep, and for the summary.
pub fn run_drill<K: Sink>(alloc: Global, words: &[String], sink: &mut K) -> Status
    ensures ends { Ends (drill_command (drill_words (map string_bytes words.now)))
        (given_by K.held K.faults sink.old sink.new) result }
    ensures claim { IfSome (drill_words (map string_bytes words.now)) IsHonestFor }
    ensures complete { IsComplete (drill_command (drill_words (map string_bytes words.now)))
        (given_by K.held K.faults sink.old sink.new) result }
{
    let composed = compose(alloc, words);
    finish(sink, composed.status, composed.text.as_slice())
}
