//! Running a drill: its clients, each with the message that is under way for it, its server, and the summary of the run.
//!
//! What a drill does is `drill_of` of `vic_drill` (`specs/Drills.antt`). The contract of [`summary_of`] says that it answers
//! `print_of_drill`, and that such a run is an honest one.
#![tactic(auto)]

mod opening;
pub mod run;
pub mod seat;
pub mod tally;

pub use run::summary_of;

#[cfg(test)]
mod tests;
