//! A link in memory, which tells its bytes, and fails at the calls that it is told to.

ghost use Rattle.std.specs.Prelude.{◌≡◌, ◌≢◌, ◌+◌, ◌-◌, ◌^◌, ◌≤◌, ◌<◌, ◌↔◌, false, [], length, drop, min, Some, IsTrue, if◌then◌else◌};
ghost use Rattle.vic_ports.specs.Causes.{ReadGives};
ghost use Rattle.vic_ports.specs.Failing.{is_to_fail};

use crate::memory::{Calls, copy_front};
use crate::ports::Got;
use std::alloc::Global;
use vic_dict::Bytes;

/// A link over bytes in memory; its reads and writes are counted in one sequence.
#[derive(Debug, Drop)]
pub struct MemoryLink {
    /// All that it has to give.
    pub(crate) bytes: Bytes,
    /// How many of them were read.
    pub(crate) taken: usize,
    /// What was written.
    pub(crate) written: Bytes,
    /// The calls that are to fail.
    pub(crate) fails: Calls,
    /// How many reads and writes there were.
    pub(crate) calls: u64,
    /// How many of them failed.
    pub(crate) faults: u64,
    /// Whether a read has answered that nothing is left.
    pub(crate) ended: bool,
    ghost within: { taken ≤ length bytes },
}

impl MemoryLink {
    /// A link that gives these bytes, and whose calls with these numbers fail.
    pub fn new(alloc: Global, bytes: Bytes, fails: Calls) -> MemoryLink
        ensures left { drop result.taken result.bytes ≡ bytes }
        ensures written { result.written ≡ [] }
        ensures fails { result.fails ≡ fails }
        ensures calls { result.calls ≡ 0 }
        ensures faults { result.faults ≡ 0 }
        ensures ended { result.ended ≡ false }
    {
        MemoryLink {
            bytes,
            taken: 0,
            written: Bytes::new(alloc),
            fails,
            calls: 0,
            faults: 0,
            ended: false,
        }
    }

    /// What was written.
    pub fn written(&self) -> &Bytes
        ensures { result.now ≡ self.now.written }
    {
        &self.written
    }

    // Counts a call, and whether it is to fail.
    pub(crate) fn fails_now(&mut self) -> bool
        ensures planned { IsTrue result ↔ IsTrue (is_to_fail self.old.fails self.new.calls) }
        ensures none { self.old.fails ≡ [] → result ≡ false }
        ensures calls { self.new.calls ≡ min (self.old.calls + 1) (2 ^ 64 - 1) }
        ensures same { (self.new.bytes ≡ self.old.bytes) × ((self.new.taken ≡ self.old.taken) × ((self.new.written ≡ self.old.written) × ((self.new.fails ≡ self.old.fails) × (self.new.ended ≡ self.old.ended)))) }
        ensures later { self.old.faults ≤ self.new.faults }
        ensures faults { self.new.faults ≡ (if result then min (self.old.faults + 1) (2 ^ 64 - 1) else self.old.faults) }
    {
        self.calls = self.calls.saturating_add(1);
        if self.fails.has(self.calls) {
            self.faults = self.faults.saturating_add(1);
            return true;
        }
        false
    }

    pub(crate) fn take_front(&mut self, into: &mut [u8]) -> Got
        requires { 0 < length into.old }
        ensures given { ReadGives into.new (Some (drop self.old.taken self.old.bytes)) (Some (drop self.new.taken self.new.bytes)) self.old.faults self.new.faults self.old.ended self.new.ended result }
        ensures works { result ≢ Got.Failed }
        ensures same { (self.new.fails ≡ self.old.fails) × ((self.new.calls ≡ self.old.calls) × ((self.new.faults ≡ self.old.faults) × (self.new.written ≡ self.old.written))) }
    {
        let left = &self.bytes.as_slice()[self.taken..];
        if left.is_empty() {
            self.ended = true;
            return Got::End;
        }
        let n = copy_front(left, into);
        self.taken += n;
        Got::Bytes(n)
    }
}
