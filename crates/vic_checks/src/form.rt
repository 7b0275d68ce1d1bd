//! Which kinds of answers are awaited, and the limits on lengths.

ghost use Rattle.std.specs.Prelude.{◌≡◌, ◌+◌, ◌-◌, ◌≤◌, ◌&&◌, length, nat_le, nat_lt, is_some, IsTrue};
ghost use Rattle.vic_dict.specs.declared.limits.TheConstants.{MOST_ENTRIES, MOST_TOLD, MOST_UNSEALED};
ghost use Rattle.vic_wire.specs.Messages.{HasSpelling};
ghost use Rattle.vic_rules.specs.Client.{Standing, is_awaited as awaited, has_form as form};
ghost use Rattle.vic_checks.specs.Parted.{part_of, IsWithin, path_length};
ghost use Rattle.vic_checks.specs.Passing.{IsFormed, RepliesTo};

use vic_dict::limits::{MOST_ENTRIES, MOST_UNSEALED};
use vic_rules::Awaiting;
use vic_wire::ToClient;

/// Whether this kind of answer is awaited.
pub fn is_awaited(awaiting: &Awaiting, message: &ToClient) -> bool
    ensures exact { result ≡ awaited awaiting.now message.now }
    ensures reply { IsTrue result → RepliesTo awaiting.now message.now }
{
    match awaiting {
        Awaiting::Nothing => false,
        Awaiting::Reply(_, _, _) => matches!(
            message,
            ToClient::Reply { .. } | ToClient::Refused(_)
        ),
        Awaiting::Turn => matches!(message, ToClient::Wait | ToClient::Update { .. }),
        Awaiting::Entries => matches!(message, ToClient::Entries { .. }),
        Awaiting::Kept => matches!(message, ToClient::Kept | ToClient::Refused(_)),
        Awaiting::Content(_, _) => matches!(message, ToClient::Content(_) | ToClient::Absent),
    }
}

// A Reply's seal stands below the new length, and not far.
pub(crate) fn reply_fits(length: u32, count: usize, position: u32) -> bool
    requires room { length ≤ MOST_ENTRIES }
    requires few { count ≤ MOST_TOLD }
    ensures { let n = length + count in result ≡ (nat_le n MOST_ENTRIES && (nat_lt position n && nat_le (n - position) MOST_UNSEALED)) }
{
    let n = length + count as u32;
    n <= MOST_ENTRIES && (position < n && n - position <= MOST_UNSEALED)
}

// The seal of Entries stands at the new length or below it, and not far.
fn entries_fit(length: u32, count: usize, position: u32) -> bool
    requires room { length ≤ MOST_ENTRIES }
    requires few { count ≤ MOST_TOLD }
    ensures { let n = length + count in result ≡ (nat_le n MOST_ENTRIES && (nat_le position n && nat_le (n - position) MOST_UNSEALED)) }
{
    let n = length + count as u32;
    n <= MOST_ENTRIES && (position <= n && n - position <= MOST_UNSEALED)
}

// The seal of an Update stands at the length or below it.
fn update_fits(length: u32, position: u32) -> bool
    requires { length ≤ MOST_ENTRIES }
    ensures { result ≡ (nat_le length MOST_ENTRIES && nat_le position length) }
{
    position <= length
}

/// The check FORM: whether the answer has the form that is awaited, for a path of this length; `is_part` tells whether the bytes
/// of its part spell one. It costs nothing that grows.
pub fn has_form(length: u32, awaiting: &Awaiting, message: &ToClient, is_part: bool) -> bool
    requires room { length ≤ MOST_ENTRIES }
    requires spelled { HasSpelling message.now }
    requires part { is_part ≡ is_some (part_of message.now) }
    ensures exact { (s : Standing) → path_length s ≡ length → s.awaiting ≡ awaiting.now → result ≡ form s message.now }
    ensures within { IsTrue result → IsWithin length message.now }
    ensures formed { IsTrue result → IsFormed length awaiting.now is_part message.now }
{
    match message {
        ToClient::Reply { seal, entries, .. } => is_awaited(awaiting, message)
            && (is_part && reply_fits(length, entries.len(), seal.position)),
        ToClient::Update { seal, .. } => is_awaited(awaiting, message)
            && (is_part && update_fits(length, seal.position)),
        ToClient::Entries { seal, entries } => is_awaited(awaiting, message)
            && entries_fit(length, entries.len(), seal.position),
        _ => is_awaited(awaiting, message),
    }
}
