//! What is printed of a client that took an answer.

ghost use Rattle.std.specs.Prelude.{◌≡◌, ◌++◌, OnOk};
ghost use Rattle.vic_script.specs.Scenes.{print_of_outcomes, line_by};
ghost use Rattle.vic_script.specs.Words.{outcome_words, object_words};

use std::alloc::Global;
use vic_dict::{Bytes, NoMemory, Outcome};
use vic_rules::ObjectOutcome;
use vic_text::{object_text, outcome_text, put_number};

/// Appends what a client returned, each outcome in a line: that of its call, and then that of its call on objects; or that it took an
/// answer, where it returned neither. A content costs its first 32 bytes.
pub fn put_said(
    out: &mut Bytes,
    alloc: Global,
    who: u8,
    returned: &Option<Outcome>,
    object: &Option<ObjectOutcome>,
) -> Result<(), NoMemory>
    ensures { OnOk result (out.new ≡ out.old ++ print_of_outcomes who returned.now object.now) }
{
    match (returned, object) {
        (None, None) => put_line(out, alloc, who, b"took"),
        (Some(outcome), None) => put_outcome_line(out, alloc, who, outcome),
        (None, Some(outcome)) => put_object_line(out, alloc, who, outcome),
        (Some(outcome), Some(ended)) => {
            put_outcome_line(out, alloc, who, outcome)?;
            put_object_line(out, alloc, who, ended)
        }
    }
}

/// Appends a line of a client's words.
fn put_line(out: &mut Bytes, alloc: Global, who: u8, words: &[u8]) -> Result<(), NoMemory>
    ensures { OnOk result (out.new ≡ out.old ++ line_by who words.now) }
{
    put_number(out, u64::from(who))?;
    out.append(b" ")?;
    out.append(words)?;
    out.append(b"\n")
}

fn put_outcome_line(
    out: &mut Bytes,
    alloc: Global,
    who: u8,
    outcome: &Outcome,
) -> Result<(), NoMemory>
    ensures { OnOk result (out.new ≡ out.old ++ line_by who (outcome_words outcome.now)) }
{
    let words = outcome_text(alloc, outcome)?;
    put_line(out, alloc, who, words.as_slice())
}

fn put_object_line(
    out: &mut Bytes,
    alloc: Global,
    who: u8,
    outcome: &ObjectOutcome,
) -> Result<(), NoMemory>
    ensures { OnOk result (out.new ≡ out.old ++ line_by who (object_words outcome.now)) }
{
    let words = object_text(alloc, outcome)?;
    put_line(out, alloc, who, words.as_slice())
}
