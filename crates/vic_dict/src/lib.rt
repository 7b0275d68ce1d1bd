//! The dictionary that clients share: byte texts, operations with their answers, and a plain map that does them.
//!
//! What an operation answers and leaves is `reply` and `after` of `specs/Dictionary.antt`; `PlainDict::do_op` carries it.
#![tactic(auto)]

pub mod bytes;
pub mod limits;
pub mod op;
pub mod plain;

pub use bytes::{Bytes, Names, NoMemory};
pub use op::{Answer, Entry, Mode, Op, Outcome};
pub use plain::PlainDict;

#[cfg(test)]
mod tests;
