//! A client of a group: it calls, polls and syncs, and takes what is said to come from the server, whatever the bytes are. In a group
//! with objects it makes calls on objects, which go on with the answers that it takes.
//!
//! Its rule is `step` of `vic_rules` (`specs/Client.antt`). A client keeps only what lies above its highest seal, so its
//! contracts speak of each standing that it stands for (`StandsFor` of `specs/Kept.antt`): from whatever standing, the call
//! shows the move that the rule makes there, and stands for where it leads.
//!
//! Each call can be made in two phases: the step is planned or heard, which may take memory, and is then kept or forgotten, which
//! takes none and can't fail (`IsPendingOf` of `specs/Pending.antt`). One of the two has to be done, to a step that is
//! pending in the client as it then is (`HasPending`).
#![tactic(auto)]

mod calling;
pub mod client;
mod hearing;
mod pending;
mod sending;
pub mod step;
mod taking;

pub use client::Client;
pub use pending::Pending;
pub use sending::request_payload;
pub use step::Step;
