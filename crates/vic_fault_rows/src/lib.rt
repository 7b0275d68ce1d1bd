//! Rows of the commands over devices that fail and input that is cut off, and of calls with memory enough that no other row makes: tests
//! alone. They stand apart from `vic_cli`, so that a test needs its contracts alone.
#![tactic(auto)]

#[cfg(test)]
mod client;
#[cfg(test)]
mod memory;
#[cfg(test)]
mod narrow;
#[cfg(test)]
mod output;
#[cfg(test)]
mod serve;
#[cfg(test)]
mod tests;
