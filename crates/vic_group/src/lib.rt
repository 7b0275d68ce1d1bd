//! The run of a script of a group: its clients with their queues, its servers, the world in which its lines happen, and what is
//! printed.
//!
//! The contract of [`play::play`] says that a run prints `print_of_script` and ends by `end_of`. That of `World::apply`
//! says, for servers of any kind, that a line is done as `done_line` says, or bad by `bad_kind`, or found no memory and left what
//! `LeftWithoutMemory` says. [`laws`] has what holds of every lawful history, whatever the server sends, and [`apart`] tells whether a run is
//! excepted from it by two texts with one hash.
#![tactic(auto)]

pub mod apart;
mod header;
pub mod laws;
mod member;
mod objects;
mod opening;
mod place;
pub mod play;
mod queue;
mod said;
mod servers;
pub mod world;

pub use apart::texts_are_apart;
pub use play::{End, Played};
pub use world::{World, WorldFault};

#[cfg(test)]
mod tests;
