//! Scripts whose header names how server 1 misbehaves, and what they print: tests alone. They stand apart from `vic_group`, so that a
//! test needs its contracts alone.
#![tactic(auto)]

#[cfg(test)]
mod tests;
