//! A server of connections: the server stands behind a turn lock, and each connection has a worker in a thread of its own.
//!
//! [`hosting::host`] is the whole: lines come, are served and go back. What it did is `IsRun` of `specs/Runs.antt`: each answer that
//! was sent stands at its place in the one history that the server keeps at the end.
#![tactic(auto)]

pub mod crew;
pub mod hall;
pub mod hosting;
pub mod recorder;

pub use hall::Hall;
pub use hosting::{Hosted, host};
