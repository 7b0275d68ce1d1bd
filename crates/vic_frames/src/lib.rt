//! Messages as payloads: each request and each answer has one spelling, which is written here and read here.
//!
//! The spellings are `request_text` and `answer_text` of `vic_wire`, in `specs/Messages.antt`, and reading is `read_request`
//! and `read_answer` of its `specs/Reading.antt`. The contracts of the four calls carry them.
#![tactic(auto)]

pub mod answer;
mod fields;
pub mod request;

pub use answer::{decode_answer, encode_answer};
pub use request::{decode_request, encode_request};
pub use vic_wire::{Digest32, Seal, Tagged, TaggedList, ToClient, ToServer};

#[cfg(test)]
mod tests;
