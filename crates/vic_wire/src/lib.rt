//! What goes over the wire, and what it is made of: messages, the texts that are hashed or tagged, the bits of keys, the
//! tree of a dictionary, and the one spelling of each.
//!
//! This crate holds the types that contracts see, and the definitions in `specs/`; it reads and writes nothing itself.
#![tactic(auto)]

pub mod message;
pub mod refusal;

pub use message::{Digest32, Seal, Tagged, TaggedList, ToClient, ToServer};
