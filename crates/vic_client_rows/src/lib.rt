//! Rows of a client: what it takes and sends, byte by byte. They stand apart from `vic_client`, so that a test needs its contracts
//! alone.
#![tactic(auto)]

#[cfg(test)]
mod tests;
