//! A turn lock over one value that keeps its history: whoever steps it draws a ticket, waits until the ticket is served, and hands
//! the value on. So all steps stand in one order, and each sees what its own pass did before.
//!
//! The rule over the two words and the one slot, `Kept` of `specs/Turns.antt`, holds at every moment; `specs/Told.antt` says what
//! each atomic step tells its view. What the public calls say of passes is in `specs/Passes.antt`: `Answers` and `Refuses` of a step,
//! `IsPassOf` and `IsNoteOf` of whose a pass or a note is. Nothing is said of when a turn comes.
#![tactic(auto)]

pub mod lock;
pub mod pass;
pub mod passes;
pub mod recorded;
pub mod rule;
#[cfg(test)]
mod tests;
pub mod view;
