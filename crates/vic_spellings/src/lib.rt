//! Each message has one spelling, and a payload spells at most one message: what the readers of `vic_wire` find in a payload
//! is what its texts spell.
//!
//! This crate holds only laws and their proofs, no code. The contracts of [`answers`] and [`requests`] carry the laws; the
//! lemmas in `proofs/` say the same of each field.
#![tactic(auto)]

ghost use Rattle.vic_spellings.specs.Spellings.{AnswersAreSpelled, RequestsAreSpelled, PartsAreSpelled};

/// An answer is read of a payload of bytes exactly where the payload is the answer's spelling, and no two answers share one.
pub fn answers()
    ensures { AnswersAreSpelled }
{}

/// A request is read of a payload of bytes exactly where the payload is the request's spelling, and no two requests share one.
pub fn requests()
    ensures { RequestsAreSpelled }
{}

/// A part is read of bytes exactly where they are its spelling, and no two parts share one.
pub fn parts()
    ensures { PartsAreSpelled }
{}
