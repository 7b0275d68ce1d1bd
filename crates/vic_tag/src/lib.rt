//! The key of a group, and tags of texts under it.
//!
//! A tag is HMAC (RFC 2104) over SHA-256: `tag_of` of the wire's `specs/Hashes.antt`. `GroupKey::tag` carries it.
#![tactic(auto)]

pub mod key;

pub use key::{GroupKey, KeyFault, same_digest};

#[cfg(test)]
mod tests;
