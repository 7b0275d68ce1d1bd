//! Rows of the server: requests and answers byte by byte, and its limits. They stand apart from `vic_server`, so that a test needs its
//! contracts alone.
#![tactic(auto)]

#[cfg(test)]
mod tests;
