//! The laws of histories: what holds of every lawful history of a group, whatever the payloads hold.
//!
//! This crate has no code that runs. The files of `specs/` state the laws over the definitions of `vic_rules`, and each law is the contract of a function without parameters and with an empty body. The contract of
//! [`headline`] carries the claim on a group's views, `EveryHistoryHolds` of `vic_rules`.
#![tactic(auto)]

ghost use Rattle.vic_rules.specs.Headline.{EveryHistoryHolds};

pub mod objects;
pub mod order;
pub mod terms;
pub mod trust;

/// The claim on a group's views, of every lawful history. The laws in [`order`] and [`trust`] are its parts, some of them with
/// fewer premises, and what it rests on: tags, hashes, seals, and what a client decides of its call. Those in [`terms`] say what its words
/// mean, and those in [`objects`] what calls on objects do.
pub fn headline()
    ensures { EveryHistoryHolds }
{}
