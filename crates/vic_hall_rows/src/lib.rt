//! Rows of the hall: connections in memory that one server serves at once, and a note from one pass to another. They stand apart from
//! `vic_hall`, so that a test needs its contracts alone.
#![tactic(auto)]

#[cfg(test)]
mod tests;
