//! A client over a link: the lines of its script, one after the other.
#![tactic(auto)]

pub mod end;
pub mod laws;
mod lines;
mod place;
mod run;
mod stepping;
mod wire;

pub use end::SessionEnd;
pub use run::run_lines;

#[cfg(test)]
mod tests;
