//! The server: it orders the calls of clients, keeps their commits, seals and contents, and answers each request.
//!
//! Its rule is `serve` of `vic_order`, in `specs/Order.antt`; the contract of [`Served::step`] carries it, and `specs/Causes.antt`
//! beside it, which says why each refusal and Wait comes. What it keeps beside the lists that the rule speaks of (an index of
//! commits and a counter of weight) is `specs/Keeping.antt`.
//!
//! [`Serve`] is the trait for servers of any kind: its `rule` is a `Serving` of `vic_order`, that of [`Served`] is `by_rule`.
//!
//! A server of another kind that stands on this one serves in two phases. [`Served::plan`] gives a [`Plan`], the answer with the
//! [`Effect`] on the server, and changes nothing. The other server then encodes its own answer, and takes all other memory that it
//! needs. [`Served::keep`] comes last: it makes the change, or runs out of memory and changes nothing.
#![tactic(auto)]

pub mod change;
pub mod machine;
mod next;
mod requests;
mod rows;
pub mod serve;
pub mod served;

pub use change::{Change as Effect, Plan};
pub use serve::Serve;
pub use served::Served;
