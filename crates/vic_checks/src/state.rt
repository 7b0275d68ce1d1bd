//! What a client keeps between two answers.

ghost use Rattle.std.specs.Prelude.{◌≡◌, ◌<◌, ◌-◌, ◌↔◌, IsTrue, [], ◌∷◌, ◌++◌, length, take, drop, OnOk, OnErr, slice_get, nat_lt, option_copied, IfSome};
ghost use Rattle.std.specs.List.{list_all};
ghost use Rattle.vic_checks.specs.Owns.{IsOwn};

use std::alloc::Global;
use std::collections::VecDeque;
use std::marker::Model;
use vic_chain::Window;
use vic_dict::{Mode, NoMemory};
use vic_rules::{Awaiting, Own};
use vic_tag::GroupKey;

/// The calls that a client has decided and not yet sealed, the oldest first. The texts of their operations are within the
/// limits.
#[derive(Debug, Drop)]
pub struct OwnList {
    items: VecDeque<Own>,
}

impl Model for OwnList {
    ghost use Rattle.std.specs.Prelude.{List};
    ghost use Rattle.std.specs.List.{AllByRecursion};
    ghost use Rattle.vic_rules.specs.declared.state.Own.{Own};
    ghost use Rattle.vic_checks.specs.Owns.{IsOwn};

    ghost Value = { List Own };

    ghost view = { λ a. a.items.items };

    ghost invariant = { λ a. AllByRecursion IsOwn a.items.items };
}

impl OwnList {
    /// The empty list; it takes no memory.
    pub fn new(alloc: Global) -> OwnList
        ensures { result ≡ [] }
    {
        OwnList {
            items: VecDeque::new(alloc),
        }
    }

    pub fn len(&self) -> usize
        ensures { result ≡ length self.now }
    {
        self.items.len()
    }

    pub fn is_empty(&self) -> bool
        ensures { IsTrue result ↔ (self.now ≡ []) }
    {
        self.items.is_empty()
    }

    /// The call at a place, counted from 0.
    pub fn at(&self, place: usize) -> &Own
        requires { place < length self.now }
        ensures item { slice_get self.now place ≡ Some result.now }
        ensures fits { IsOwn result.now }
    {
        &self.items[place]
    }

    /// The oldest call.
    pub fn first(&self) -> Option<&Own>
        ensures item { option_copied result ≡ slice_get self.now 0 }
        ensures fits { IfSome (option_copied result) IsOwn }
    {
        self.items.get(0)
    }

    /// Puts a call last.
    pub fn push(&mut self, call: Own) -> Result<(), NoMemory>
        requires { IsOwn call }
        ensures ok { OnOk result (self.new ≡ self.old ++ call ∷ []) }
        ensures err { OnErr result (self.new ≡ self.old) }
    {
        self.items.push_back(call)?;
        Ok(())
    }

    /// Drops the oldest call; the cost doesn't grow with the list.
    pub fn drop_first(&mut self)
        ensures { self.new ≡ drop 1 self.old }
    {
        let _ = self.items.pop_front();
    }

    /// Drops the newest call; the cost doesn't grow with the list.
    pub fn drop_last(&mut self)
        ensures { self.new ≡ take (length self.old - 1) self.old }
    {
        let _ = self.items.pop_back();
    }

    /// Whether all calls stand above a position.
    pub fn are_above(&self, position: u32) -> bool
        ensures { result ≡ list_all (λ o. nat_lt position o.position) self.now }
    {
        for i in 0..self.len() {
            if self.at(i).position <= position {
                return false;
            }
        }
        true
    }
}

/// What a client keeps that hasn't halted: who it is, its group, the window of its path, its own calls that aren't sealed, and
/// what it awaits. Anybody may put the fields together, so mode, count or key can be another group's than the window's; such a
/// state stands for no client, and the clause `exact` of `judge` says nothing of it.
#[derive(Debug, Drop)]
pub struct State {
    /// The client's number, from 1 to the count.
    pub id: u8,
    /// How many clients the group has, 1 to 64.
    pub count: u8,
    /// Whether the group has objects.
    pub mode: Mode,
    /// The key that the clients share.
    pub key: GroupKey,
    /// Its highest seal, and the path above it.
    pub window: Window,
    /// Its own calls that it has decided and that aren't sealed.
    pub own: OwnList,
    /// What answer it awaits, if one.
    pub awaiting: Awaiting,
}

/// What the checks say of an answer.
#[derive(Clone, Copy, Debug, PartialEq, Eq)]
pub enum Verdict {
    Pass,
    /// The number of the first check that failed, of `vic_rules::check`.
    Halt(u8),
}
