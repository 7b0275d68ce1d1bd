//! Transcripts of a group's clients, and the views that they give: what each client completed and saw confirmed, how far two
//! views agree, and whether the history is forged.
//!
//! A view is `view_of` of `vic_rules` (`specs/Views.antt`), which the contract of `view_of` carries. The lines that are
//! printed are those of `vic_script` (`specs/Print.antt`), which the contract of `put_end` carries. Whether a text was taken whose
//! tag no client had made is `is_forged` there, and means `IsForged` of `vic_rules`; both are in the contract of `forged`.
//! `view_plainly` has the contract of `view_of`, and `forged_plainly` the clause `is` of `forged`; they are the definitions read off
//! directly.
//!
//! The calls of a view are those on the dictionary. In a group with objects a view shows the references, never the contents: a
//! store is the put of 36 bytes, and a load the get that finds them.
#![tactic(auto)]

mod forgery;
pub mod plain;
pub mod print;
pub mod replay;
mod together;
pub mod transcript;
pub mod view;
pub mod views;

pub use forgery::forged;
pub use plain::{forged_plainly, view_plainly};
pub use print::{Printed, print_end, print_views, put_end};
pub use replay::{ClientPath, Place, Places, answer_taken, path_of};
pub use transcript::Transcript;
pub use vic_rules::{Input, Shown, TraceStep};
pub use view::{View, agree};
pub use views::{common_length, view_of};

#[cfg(test)]
mod tests;
