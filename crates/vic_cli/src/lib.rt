//! The commands: what each reads, does, prints, and how it ends.
//!
//! Each composes what it prints in memory, and writes it at the end by [`finish`]. The contracts of [`run_group`], [`run_drill`],
//! [`run_client`] and [`run_serve`] carry `Ends` and `IsComplete` of `specs/Command.antt`, each for a command of its own:
//! `group_command` of `specs/GroupEnds.antt`, `drill_command` of `specs/Drilling.antt`, `client_command` of
//! `specs/ClientEnds.antt` and `serve_command` of `specs/Serving.antt`. These say of each status what causes it. That of
//! [`run_group`] carries `IsAsClaimed` besides. A program ends with [`code_of`] its command's status.
#![tactic(auto)]

mod arguments;
pub mod client;
pub mod client_words;
pub mod drill;
mod exit;
pub mod group;
mod output;
pub mod serve;
pub mod session;
mod words;

pub use client::run_client;
pub use drill::run_drill;
pub use exit::code_of;
pub use group::{run_group, run_in_memory};
pub use output::{Composed, Text, finish};
pub use serve::run_serve;
pub use vic_text::Status;
pub use words::words_of;

#[cfg(test)]
mod client_tests;
#[cfg(test)]
mod drill_tests;
#[cfg(test)]
mod serve_tests;
#[cfg(test)]
mod tests;
#[cfg(test)]
mod together_tests;
