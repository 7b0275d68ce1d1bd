//! Writing a whole text to a link.

ghost use Rattle.std.specs.Prelude.{◌≡◌, ◌≤◌};
ghost use Rattle.vic_ports.specs.Sending.{Sends};

use crate::link::Link;
use crate::ports::Put;
use crate::writing::{Written, beyond};

/// Writes a text, in as many writes as the link wants. Each takes at least one byte, so it ends.
pub fn send<L: Link>(link: &mut L, text: &[u8]) -> Written
    ensures given { Sends text.now (L.told link.old) (L.told link.new) result }
    ensures later { (L.told link.old).faults ≤ (L.told link.new).faults }
{
    let mut rest = text;
    while !rest.is_empty() {
        match link.write(rest) {
            Put::Took(n) => rest = beyond(rest, n),
            Put::Failed => return Written::Fault,
            Put::NoMemory => return Written::NoMemory,
        }
    }
    Written::All
}
