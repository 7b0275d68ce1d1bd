//! The checks of an answer, and the decision on a call.
//!
//! A client that awaits an answer keeps a `State`. What it must make of the answer is `verdict_on` and `decision` of
//! `vic_rules/specs/Client.antt`; the contracts of `judge` and `decide` carry them, for each standing that the state
//! stands for (`StandsForState` of `specs/State.antt`). [`tags`] has the tags that clients make; the checks of
//! entries and of seals compare with them.
#![tactic(auto)]

pub mod contents;
pub mod deciding;
pub mod form;
pub mod judging;
pub mod members;
pub mod seals;
pub mod state;
pub mod tags;

pub use deciding::decide;
pub use judging::judge;
pub use state::{OwnList, State, Verdict};
pub use vic_rules::{Awaiting, Own};

#[cfg(test)]
mod tests;
