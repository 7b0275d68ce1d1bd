//! The fields of messages, entries and parts: each is read from the front of a text, and put at the end of one.
//!
//! Reading is `specs/Reading.antt` of `vic_wire`, and the texts are those of its `specs/Texts.antt`. The contract of each
//! `take_` call of `Cut` says that it gives what reading gives, and that of each `put_` call that it appends the one text.
#![tactic(auto)]

pub mod cut;
mod draft;
pub mod put;
mod reading;

pub use cut::{Cut, CutFault};
pub use put::{put_bytes, put_digest, put_entry, put_op, put_u8, put_u16, put_u32};

#[cfg(test)]
mod tests;
