//! Which texts count as made: in every lawful history, those that a reader finds in the bytes that clients sent, and no others.
//!
//! This crate holds only laws and their proofs, no code. The claim on a group's views has an exception: a client took a text that
//! no client had tagged. `texts_made` of `vic_rules` says by the client's rule which texts are tagged. The contract of
//! [`made_texts`] says it by what was sent, both ways, and that of [`forgeries`] says the exception so.
#![tactic(auto)]

ghost use Rattle.vic_made.specs.MadeTexts.{SentRequests, MadeTexts, MadeTags, Forgeries};

/// Whatever a client sends is bytes, and is read as a request.
pub fn sent_requests()
    ensures { SentRequests }
{}

/// A text counts as made exactly where a client sent a payload that is read as a request with this text, and the tag read there
/// is the text's.
pub fn made_texts()
    ensures texts { MadeTexts }
    ensures tags { MadeTags }
{}

/// A tag counts as forged exactly where a client took a text that no client had sent before.
pub fn forgeries()
    ensures { Forgeries }
{}
