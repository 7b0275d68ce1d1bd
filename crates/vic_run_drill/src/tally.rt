//! How the calls of a drill ended.

ghost use Rattle.std.specs.Prelude.{◌≡◌};
ghost use Rattle.vic_run_drill.specs.Running.{CanCount, tally_with};

use vic_dict::Outcome;

/// How many calls were done, aborted and refused.
#[derive(Clone, Copy, Debug, PartialEq, Eq)]
pub struct Tally {
    /// Calls with an answer.
    pub done: u32,
    /// Calls that left nothing.
    pub aborted: u32,
    /// Calls that were never ordered.
    pub refused: u32,
}

impl Tally {
    /// Counts what a step returned.
    pub fn count(&mut self, returned: &Option<Outcome>)
        requires { CanCount self.old }
        ensures { self.new ≡ tally_with self.old returned.now }
    {
        match returned {
            Some(Outcome::Done(_)) => self.done += 1,
            Some(Outcome::Aborted(_)) => self.aborted += 1,
            Some(Outcome::Refused(_)) => self.refused += 1,
            Some(Outcome::Halted(_)) | None => (),
        }
    }
}
