//! A link: bytes come from its other end and go to it.

ghost use Rattle.std.specs.Prelude.{◌≤◌, ◌<◌, length};
ghost use Rattle.vic_ports.specs.Links.{Told, LinkReads, LinkWrites};

use crate::ports::{Got, Put};

/// Where bytes come from and go to.
pub trait Link {
    /// What it tells: the bytes left to read and those written, where it tells them; how many of its reads and writes have
    /// failed, one count for both, which moves in no other call and stands still at the greatest u64; and whether a read has
    /// answered that nothing is left.
    ghost told: { Self → Told };

    /// Reads at least one byte into the front of the buffer, if there is one. What was written stays.
    fn read(&mut self, into: &mut [u8]) -> Got
        requires { 0 < length into.old }
        ensures given { LinkReads into.new (told self.old) (told self.new) result }
        ensures later { (told self.old).faults ≤ (told self.new).faults };

    /// Writes at least one byte of the piece's front. What is left to read stays.
    fn write(&mut self, piece: &[u8]) -> Put
        requires { 0 < length piece.now }
        ensures given { LinkWrites piece.now (told self.old) (told self.new) result }
        ensures later { (told self.old).faults ≤ (told self.new).faults };
}
