//! A list of passes.
ghost use Rattle.std.specs.Prelude.{◌≡◌, ◌<◌, ◌++◌, take, drop, length, slice_index_or};
ghost use Rattle.std.specs.Borrow.{Lends, Array, sem};
ghost use Rattle.vic_turn.specs.contracts.passes.Passes.{the_row};
ghost use Rattle.vic_turn.specs.contracts.pass.Pass.{the_row as pass_row};

use crate::pass::Pass;
use crate::recorded::Recorded;
use std::marker::Model;

/// The passes of a lock, as it made them or in another order. Contracts see the list.
#[derive(Drop)]
pub struct Passes<V: Recorded> {
    passes: Vec<Pass<V>>,
}

impl<V: Recorded> Model for Passes<V> {
    ghost use Rattle.std.specs.Prelude.{List};
    ghost use Rattle.std.specs.Coded.{coded_list};
    ghost use Rattle.vic_turn.specs.Passes.{PassView, pass_code};

    ghost Value = { List (PassView V.Fixed) };

    ghost coded = { coded_list (pass_code V.Fixed.code) };

    ghost view = { λ p. p.passes.items };
}

impl<V: Recorded> Passes<V> {
    /// The passes of a `Vec`; it takes no memory.
    pub fn of(passes: Vec<Pass<V>>) -> Passes<V>
        ensures { result ≡ passes.items }
    {
        Passes { passes }
    }

    /// The passes, each to be handed to whoever steps with it; it takes no memory.
    pub fn into_vec(self) -> Vec<Pass<V>>
        ensures { result.items ≡ self }
    {
        let Passes { passes } = self;
        passes
    }

    pub fn len(&self) -> usize
        ensures { result ≡ length self.now }
    {
        self.passes.len()
    }

    /// The pass at a place, counted from 0.
    pub fn at(&self, place: usize) -> &Pass<V>
        requires { place < length self.now }
        ensures { result.now ≡ slice_index_or self.now place result.now }
    {
        &self.passes[place]
    }

    pub fn as_mut_slice(&mut self) -> &mut [Pass<V>]
        ensures* writes_back { sem 𝓛 (Lends (the_row V.row V.Reply.row V.Fixed.row V.Recorded) (Array (pass_row V.row V.Reply.row V.Fixed.row V.Recorded) 0) self.entry result (λ w. take (length self.entry.now) (w ++ drop (length w) self.entry.now))) }
        ensures value { result.now ≡ self.old }
    {
        self.passes.as_mut_slice()
    }
}
