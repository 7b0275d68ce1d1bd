//! The rules of a client, the histories of a group, the views that they give, and the claim on those views.
//!
//! This crate holds the types that contracts see, and the definitions in `specs/`; `specs/Headline.antt` is the claim. Its only
//! code is the two tests of equality in [`same`].
#![tactic(auto)]

pub mod check;
pub mod object;
pub mod same;
pub mod state;
pub mod trace;

pub use object::{Next, ObjectCall, ObjectOutcome, Phase};
pub use same::{same_entry, same_op};
pub use state::{Awaiting, Own};
pub use trace::{Input, Shown, TraceStep};
