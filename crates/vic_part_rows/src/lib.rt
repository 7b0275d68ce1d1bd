//! Rows of tries, parts and their bytes. They stand apart from `vic_prune` and `vic_proof`, so that a test needs their contracts alone.
#![tactic(auto)]

#[cfg(test)]
mod bytes;
#[cfg(test)]
mod parts;
