//! Passes and notes.
ghost use Rattle.std.specs.Prelude.{◌≡◌};

use crate::recorded::Recorded;
use crate::view::View;
use atomic_table::Seat;
use std::marker::Model;

/// What one connection steps with. Contracts see its number, and what it has seen and made.
#[derive(Drop)]
pub struct Pass<V: Recorded> {
    /// From 1 on, in the order in which passes were made.
    pub(crate) number: u32,
    /// Its place at the lock, with what it has seen.
    pub(crate) seat: Seat<V, View<V::Fixed>>,
}

impl<V: Recorded> Model for Pass<V> {
    ghost use Rattle.vic_turn.specs.Passes.{PassView, pass_code, pass_view, IsIdle};

    ghost Value = { PassView V.Fixed };

    ghost coded = { pass_code V.Fixed.code };

    ghost view = { λ p. pass_view p.seat.table_id p.number p.seat.me };

    ghost invariant = { λ p. IsIdle p.number p.seat.me };
}

/// A copy of what a pass has seen.
#[derive(Drop)]
pub struct Note<V: Recorded> {
    /// Its place at the lock, with what it has seen.
    pub(crate) seat: Seat<V, View<V::Fixed>>,
}

impl<V: Recorded> Model for Note<V> {
    ghost use Rattle.vic_turn.specs.Passes.{NoteView, note_code, note_view, IsNote};

    ghost Value = { NoteView V.Fixed };

    ghost coded = { note_code V.Fixed.code };

    ghost view = { λ p. note_view p.seat.table_id p.seat.me };

    ghost invariant = { λ p. IsNote p.seat.me };
}

impl<V: Recorded> Pass<V> {
    /// Its number, counted from 1; the changes that it makes have it as their seat.
    pub fn number(&self) -> u32
        ensures { result ≡ self.now.number }
    {
        self.number
    }
}
