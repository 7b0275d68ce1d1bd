//! Doors, through which lines come.

ghost use Rattle.std.specs.Prelude.{◌≡◌, ◌≤◌, ℕ, Option};
ghost use Rattle.vic_ports.specs.Links.{Lines, Accepts, GoesBack};
ghost use Rattle.vic_ports.specs.Coming.{line_of};

use crate::link::Link;

/// What an accept answered.
#[derive(Debug, Drop)]
pub enum Came<L> {
    Line(L),
    /// No line came.
    Failed,
}

/// Where lines come from and are given back.
pub trait Doors {
    type Line: Link;

    /// The lines that came and those that were given back, where the doors tell them.
    ghost lines: { Self → Option Lines };

    /// How many accepts have failed; it moves in no other call, never falls, and stands still at the greatest u64.
    ghost faults: { Self → ℕ };

    /// Waits for the next line.
    fn accept(&mut self) -> Came<Self::Line>
        ensures given { Accepts (lines self.old) (lines self.new) (faults self.old) (faults self.new) (line_of Self.Line.told result) }
        ensures later { faults self.old ≤ faults self.new };

    /// Takes back a line whose use has ended. It can't fail and takes no memory.
    fn back(&mut self, line: Self::Line)
        ensures given { GoesBack (Self.Line.told line) (lines self.old) (lines self.new) }
        ensures faults { faults self.new ≡ faults self.old };
}
