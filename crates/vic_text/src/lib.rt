//! Reading the lines of a script, printing operations, outcomes and bad lines, and the statuses with which commands end.
//!
//! `read_line` answers the line that a text spells by `line_of` of `vic_script`, and `kind_named` the kind of hostile servers that a
//! name tells there. `op_text`, `outcome_text`, `object_text` and `put_bad_line` are `op_words`, `outcome_words`, `object_words` and
//! `bad_line` there. `BadKind::number` and `BadKind::text` are `bad_number` of `specs/BadKinds.antt` and
//! its `kind_text`, and `Status::number` and `Status::line` are `status_number` and `fixed_line` of `specs/Statuses.antt`.
#![tactic(auto)]

pub mod bad;
pub mod client_line;
pub mod object;
pub mod print;
pub mod read;
pub mod status;
pub mod word;

pub use bad::BadKind;
pub use client_line::{ClientLine, read_client_line};
pub use print::{
    object_text, op_text, outcome_text, put_bad_line, put_number, put_object, put_op, put_outcome,
};
pub use read::{HOSTILE_LIMIT, LineFault, kind_named, read_line};
pub use status::Status;
pub use vic_script::Line;
pub use word::split_line;

#[cfg(test)]
mod tests;
