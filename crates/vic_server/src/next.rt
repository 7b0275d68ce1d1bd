//! The operation that is sealed next, as the server stands and as a planned change leaves it.

ghost use Rattle.std.specs.Prelude.{◌≡◌, ◌+◌, ◌<◌, ◌≤◌, IfSome, option_copied};
ghost use Rattle.vic_dict.specs.Dictionary.{Fits};
ghost use Rattle.vic_order.specs.Order.{ordered_at, commit_at, sealed_count};
ghost use Rattle.vic_server.specs.Changes.{server_after};
ghost use Rattle.vic_order.specs.Next.{write_in, write_at, next_op};

use crate::change::Change;
use crate::machine::{Machine, is_write};
use crate::rows::Row;
use vic_dict::Op;

/// An entry's operation, where it is a put or a del that was committed done.
fn op_of(row: Option<&Row>, status: Option<bool>) -> Option<&Op>
    ensures is { option_copied result ≡ write_in (option_copied row.entry) status }
    ensures fits { IfSome (option_copied result) (λ o. Fits o) }
{
    match (row, status) {
        (Some(row), Some(true)) if is_write(row.op()) => Some(row.op()),
        _ => None,
    }
}

impl Machine {
    pub(crate) fn next_op(&self) -> Option<&Op>
        ensures is { option_copied result ≡ next_op self.now }
        ensures fits { IfSome (option_copied result) (λ o. Fits o) }
    {
        let next = self.sealed() + 1;
        op_of(self.row_at(next), self.status_at(next))
    }

    /// The entry at a position once a planned change was made.
    fn row_above<'a>(&'a self, change: &'a Change, position: u32) -> Option<&'a Row>
        requires { 0 < position }
        ensures { option_copied result ≡ ordered_at (server_after self.now change.now) position }
    {
        match change {
            Change::Orders(_, row) if position == self.length() + 1 => Some(row),
            _ => self.row_at(position),
        }
    }

    /// How it is committed then.
    fn status_above(&self, change: &Change, position: u32) -> Option<bool>
        requires { 0 < position }
        ensures { result ≡ commit_at (server_after self.now change.now) position }
    {
        match change {
            Change::Commits(_, at, done, _) if *at == position => Some(*done),
            _ => self.status_at(position),
        }
    }

    pub(crate) fn op_above<'a>(&'a self, change: &'a Change, position: u32) -> Option<&'a Op>
        requires { 0 < position }
        ensures is { option_copied result ≡ write_at (server_after self.now change.now) position }
        ensures fits { IfSome (option_copied result) (λ o. Fits o) }
    {
        op_of(
            self.row_above(change, position),
            self.status_above(change, position),
        )
    }

    pub(crate) fn sealed_after(&self, change: &Change) -> u32
        ensures is { result ≡ sealed_count (server_after self.now change.now) }
        ensures room { result ≤ 1048577 }
    {
        match change {
            Change::Seals(_, _) => self.sealed() + 1,
            _ => self.sealed(),
        }
    }
}
