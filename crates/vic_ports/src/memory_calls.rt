//! The calls of a link in memory.

ghost use Rattle.std.specs.Prelude.{◌≡◌, ◌≢◌, ◌+◌, ◌-◌, ◌^◌, ◌≤◌, ◌<◌, ◌↔◌, [], length, min, IsTrue};
ghost use Rattle.vic_ports.specs.Links.{LinkReads, LinkWrites};
ghost use Rattle.vic_ports.specs.Memory.{told_of};
ghost use Rattle.vic_ports.specs.Failing.{is_to_fail};

use crate::link::Link;
use crate::memory_link::MemoryLink;
use crate::ports::{Got, Put};

impl Link for MemoryLink {
    ghost told = { told_of };

    fn read(&mut self, into: &mut [u8]) -> Got
        requires { 0 < length into.old }
        ensures given { LinkReads into.new (told_of self.old) (told_of self.new) result }
        ensures later { self.old.faults ≤ self.new.faults }
        ensures works { self.old.fails ≡ [] → result ≢ Got.Failed }
        ensures fails { self.new.fails ≡ self.old.fails }
        ensures calls { self.new.calls ≡ min (self.old.calls + 1) (2 ^ 64 - 1) }
        ensures planned { (result ≡ Got.Failed) ↔ IsTrue (is_to_fail self.old.fails self.new.calls) }
    {
        if self.fails_now() {
            return Got::Failed;
        }
        self.take_front(into)
    }

    fn write(&mut self, piece: &[u8]) -> Put
        requires { 0 < length piece.now }
        ensures given { LinkWrites piece.now (told_of self.old) (told_of self.new) result }
        ensures later { self.old.faults ≤ self.new.faults }
        ensures works { self.old.fails ≡ [] → result ≢ Put.Failed }
        ensures fails { self.new.fails ≡ self.old.fails }
        ensures calls { self.new.calls ≡ min (self.old.calls + 1) (2 ^ 64 - 1) }
        ensures planned { (result ≡ Put.Failed) ↔ IsTrue (is_to_fail self.old.fails self.new.calls) }
    {
        if self.fails_now() {
            return Put::Failed;
        }
        match self.written.append(piece) {
            Ok(()) => Put::Took(piece.len()),
            Err(_) => Put::NoMemory,
        }
    }
}
