//! The worker of one connection: it gives the frames of its link to a desk, one after the other, and sends the answers.
//!
//! What a worker did is `IsWorked` of `specs/Workers.antt`; the contract of [`work`] carries it.
#![tactic(auto)]

pub mod desk;
pub mod gate;
pub mod worker;

pub use desk::Desk;
pub use gate::{Gate, OpenGate};
pub use worker::{WorkEnd, work};
