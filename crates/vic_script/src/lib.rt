//! What a script of a group means: its lines, and the one run that they give, with what is printed of it.
//!
//! This crate holds the type of a line, and the definitions in `specs/`; `specs/Run.antt` is the run of a script, and
//! `specs/Print.antt` its print.
#![tactic(auto)]

pub mod line;

pub use line::Line;
