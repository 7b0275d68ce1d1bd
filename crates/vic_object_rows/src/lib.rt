//! Rows of calls on objects, between a client and a server: what each sends, byte by byte, and what the client returns. They stand
//! apart from `vic_client` and `vic_server`, so that a test needs their contracts alone.
#![tactic(auto)]

#[cfg(test)]
mod tests;
