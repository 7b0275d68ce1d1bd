//! The rule, and what each step tells.
ghost use Rattle.vic_turn.specs.Turns.{Kept};
ghost use Rattle.vic_turn.specs.Told.{opening_view, maker, made_pass, note_of, spent_view, joined_view, Came, Drew, Looked, HandedOn, Met};

use crate::recorded::Recorded;
use crate::view::View;
use atomic_table::{Join, Play, Split, TableRule};
use std::snapshot::Snapshot;

/// What the rule is told once: the value as it was, and how many passes there are.
#[derive(Drop)]
pub struct About<V> {
    /// As it was before all changes.
    pub value: Snapshot<V>,
    /// How many passes there are.
    pub count: u32,
}

pub struct Turns;

impl<V: Recorded> TableRule<V, View<V::Fixed>, About<V>> for Turns {
    ghost holds = { λ key s. Kept V.fixed V.changes (V.fixed key.value.value) key.count s };

    ghost first = { λ key. opening_view (V.fixed key.value.value) };
}

pub(crate) struct Come;

impl<X, F> Play<X, View<F>> for Come {
    ghost then = { Came };
}

pub(crate) struct Draw;

impl<X, F> Play<X, View<F>> for Draw {
    ghost then = { Drew };
}

pub(crate) struct Look;

impl<V: Recorded> Play<V, View<V::Fixed>> for Look {
    ghost then = { Looked V.fixed V.changes };
}

pub(crate) struct HandOn;

impl<V: Recorded> Play<V, View<V::Fixed>> for HandOn {
    ghost then = { HandedOn V.changes };
}

pub(crate) struct Meet;

impl<X, F> Play<X, View<F>> for Meet {
    ghost then = { Met };
}

pub(crate) struct Deal;

impl<F> Split<View<F>> for Deal {
    ghost left = { maker };

    ghost right = { made_pass };
}

pub(crate) struct TakeNote;

impl<F> Split<View<F>> for TakeNote {
    ghost left = { λ v. v };

    ghost right = { note_of };
}

pub(crate) struct Gather;

impl<F> Join<View<F>> for Gather {
    ghost both = { joined_view };

    ghost spent = { spent_view };
}
