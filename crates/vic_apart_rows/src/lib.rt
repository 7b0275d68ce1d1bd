//! Scripts in whose runs no two texts have one hash: tests alone. They stand apart from `vic_group`, so that a test needs its contracts
//! alone.
#![tactic(auto)]

#[cfg(test)]
mod tests;
