//! Rows at the limits of a client's path and of a server's log. They stand apart from `vic_client` and `vic_server`, so that a test
//! needs their contracts alone.
#![tactic(auto)]

#[cfg(test)]
mod tests;
