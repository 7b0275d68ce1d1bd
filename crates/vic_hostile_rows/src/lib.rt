//! Rows of servers that misbehave, with real clients: what each client prints, kind by kind. They stand apart from `vic_hostile`, so that a
//! test needs its contracts alone.
#![tactic(auto)]

#[cfg(test)]
mod tests;
