//! Rows of contents at the limits of what is kept: tests alone. They stand apart from `vic_blob`, so that a test needs its contracts
//! alone.
#![tactic(auto)]

#[cfg(test)]
mod tests;
