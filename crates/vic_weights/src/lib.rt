//! What a server weighs: the law that holds the word from its other side.
//!
//! This crate has no code. A server refuses a put that would make it too heavy, by `weight` of `vic_order`. The contract of
//! [`weight_is`] says that weight by the pairs themselves.
#![tactic(auto)]

ghost use Rattle.vic_weights.specs.Weights.{WeightIs};

/// A server weighs what its sealed pairs weigh together with each pair whose put isn't sealed.
pub fn weight_is()
    ensures { WeightIs }
{}
