//! Calls on objects, as lines have them.

ghost use Rattle.std.specs.Prelude.{◌≡◌, ◌↔◌, IsTrue, IfOk};
ghost use Rattle.vic_dict.specs.Dictionary.{IsKey};
ghost use Rattle.vic_rules.specs.Objects.{FitsObject, AreBytesInObject};

use std::alloc::Global;
use vic_dict::limits::{LONGEST_CONTENT, LONGEST_KEY};
use vic_dict::{Bytes, NoMemory};
use vic_rules::ObjectCall;

fn is_name(name: &Bytes) -> bool
    ensures { IsTrue result ↔ IsKey name.now }
{
    0 < name.len() && name.len() <= LONGEST_KEY
}

/// Whether the texts of a call are within the limits: a name has 1 to 255 bytes, a content at most 8,388,608, and a prefix at most 255.
pub fn fits(call: &ObjectCall) -> bool
    ensures { IsTrue result ↔ FitsObject call.now }
{
    match call {
        ObjectCall::Store(name, content) => is_name(name) && content.len() <= LONGEST_CONTENT,
        ObjectCall::Load(name) | ObjectCall::Erase(name) => is_name(name),
        ObjectCall::Names(prefix) => prefix.len() <= LONGEST_KEY,
    }
}

/// What the types say of the texts' numbers, for a proof: see `Bytes::are_bytes`. It does nothing when it runs.
pub fn are_bytes(call: &ObjectCall)
    ensures { AreBytesInObject call.now }
{
    match call {
        ObjectCall::Store(name, content) => {
            name.are_bytes();
            content.are_bytes();
        }
        ObjectCall::Load(text) | ObjectCall::Erase(text) | ObjectCall::Names(text) => {
            text.are_bytes()
        }
    }
}

/// A copy of a call, its content too.
pub fn copy_of(alloc: Global, call: &ObjectCall) -> Result<ObjectCall, NoMemory>
    ensures { IfOk result (λ made. made ≡ call.now) }
{
    Ok(match call {
        ObjectCall::Store(name, content) => {
            ObjectCall::Store(name.copy(alloc)?, content.copy(alloc)?)
        }
        ObjectCall::Load(name) => ObjectCall::Load(name.copy(alloc)?),
        ObjectCall::Erase(name) => ObjectCall::Erase(name.copy(alloc)?),
        ObjectCall::Names(prefix) => ObjectCall::Names(prefix.copy(alloc)?),
    })
}
