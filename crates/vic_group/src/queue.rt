//! Payloads that wait, the oldest first.

ghost use Rattle.std.specs.Prelude.{◌≡◌, ◌<◌, ◌-◌, [], ◌∷◌, ◌++◌, length, take, drop, MatchOption, OnOk, OnErr};

use std::alloc::Global;
use std::collections::VecDeque;
use std::marker::Model;
use vic_dict::{Bytes, NoMemory};

/// A queue of payloads. Contracts see a list, the oldest first.
#[derive(Debug, Drop)]
pub struct Queue {
    items: VecDeque<Bytes>,
}

impl Model for Queue {
    ghost use Rattle.std.specs.Prelude.{ℕ, List};

    ghost Value = { List (List ℕ) };

    ghost view = { λ a. a.items.items };
}

impl Queue {
    /// The empty queue; it takes no memory.
    pub fn new(alloc: Global) -> Queue
        ensures { result ≡ [] }
    {
        Queue {
            items: VecDeque::new(alloc),
        }
    }

    /// The oldest payload.
    pub fn oldest(&self) -> Option<&Bytes>
        ensures { MatchOption result (self.now ≡ []) (λ payload. self.now ≡ payload.now ∷ drop 1 self.now) }
    {
        self.items.front()
    }

    /// Takes the oldest payload away, if one waits.
    pub fn drop_oldest(&mut self)
        ensures { self.new ≡ drop 1 self.old }
    {
        let _oldest = self.items.pop_front();
    }

    /// Puts a payload last.
    pub fn push(&mut self, payload: Bytes) -> Result<(), NoMemory>
        ensures ok { OnOk result (self.new ≡ self.old ++ payload ∷ []) }
        ensures err { OnErr result (self.new ≡ self.old) }
    {
        self.items.push_back(payload)?;
        Ok(())
    }

    /// Takes the newest payload away again.
    pub fn withdraw(&mut self)
        ensures { self.new ≡ take (length self.old - 1) self.old }
    {
        let _newest = self.items.pop_back();
    }

    /// Puts a payload in the place of the newest; it takes no memory.
    pub fn fill(&mut self, payload: Bytes)
        requires { 0 < length self.old }
        ensures { self.new ≡ take (length self.old - 1) self.old ++ payload ∷ [] }
    {
        let _newest = self.items.pop_back();
        self.items.push_back_reserved(payload);
    }
}
