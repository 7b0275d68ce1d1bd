//! A step that a client is about to make.

ghost use Rattle.std.specs.Prelude.{◌≡◌, None, Some};

use crate::step::Step;
use vic_dict::{Bytes, Outcome};
use vic_proxy::{ObjectOutcome, Proxy};
use vic_rules::Awaiting;
use vic_wire::Digest32;

/// What becomes of a client that keeps a step. `length` is the length that its path had before the entries of the answer came
/// onto it; `position` and `root` are those of the seal that it takes or makes. It isn't `Drop`, and its module is private: no other
/// crate can let it go or take it apart, so each is kept or forgotten.
#[derive(Debug)]
pub enum Effect {
    /// It had halted before, and nothing changes.
    Stays,
    /// It halts at the check with this number.
    Halts(u8),
    /// It awaits an answer, has called so often, and its call on objects has come so far.
    Asks {
        awaiting: Awaiting,
        calls: u32,
        turned: Proxy,
    },
    /// It awaits this, or nothing.
    Awaits(Awaiting),
    /// It awaits nothing more, and no call on objects is open.
    Ends,
    /// The entries of a Reply and its own call, which are there already, stay; it awaits its turn. `turned` is how far its call on
    /// objects has come, where that has moved.
    Replies {
        length: u32,
        position: u32,
        root: Digest32,
        turned: Option<Proxy>,
    },
    /// Its oldest own call is sealed; it awaits its turn.
    Seals {
        position: u32,
        root: Digest32,
    },
    /// The entries that were listed, which are there already, stay; it awaits nothing more.
    Lists {
        length: u32,
        position: u32,
        root: Digest32,
    },
}

/// A step that a client is about to make: what it sends and returns, and what becomes of the client. The step is its caller's. The
/// effect is given back to the client that planned or heard it, which keeps it or forgets it before it does anything else; no
/// caller can do neither. Both ask that it is pending in this client, as it is now (`HasPending` of `specs/Pending.antt`).
#[derive(Debug)]
pub struct Pending {
    pub step: Step,
    pub effect: Effect,
}

impl Pending {
    /// It sends a payload and awaits an answer; it has called so often, and its call on objects has come so far.
    pub(crate) fn asks(sent: Bytes, awaiting: Awaiting, calls: u32, turned: Proxy) -> Pending
        ensures { result ≡ record { step = record { send = Some sent; returned = None; object = None }; effect = Effect.Asks awaiting calls turned } }
    {
        Pending {
            step: Step {
                send: Some(sent),
                returned: None,
                object: None,
            },
            effect: Effect::Asks {
                awaiting,
                calls,
                turned,
            },
        }
    }

    /// It sends a payload, or none, and awaits this.
    pub(crate) fn awaits(send: Option<Bytes>, awaiting: Awaiting) -> Pending
        ensures { result ≡ record { step = record { send = send; returned = None; object = None }; effect = Effect.Awaits awaiting } }
    {
        Pending {
            step: Step {
                send,
                returned: None,
                object: None,
            },
            effect: Effect::Awaits(awaiting),
        }
    }

    /// The client had halted at this check.
    pub(crate) fn stays(check: u8) -> Pending
        ensures { result ≡ record { step = record { send = None; returned = Some (Outcome.Halted check); object = None }; effect = Effect.Stays } }
    {
        Pending {
            step: Step::halted(check),
            effect: Effect::Stays,
        }
    }

    /// The client halts at this check.
    pub(crate) fn halts(check: u8) -> Pending
        ensures { result ≡ record { step = record { send = None; returned = Some (Outcome.Halted check); object = None }; effect = Effect.Halts check } }
    {
        Pending {
            step: Step::halted(check),
            effect: Effect::Halts(check),
        }
    }

    /// The client awaits nothing more, and its call is over.
    pub(crate) fn rests(returned: Outcome) -> Pending
        ensures { result ≡ record { step = record { send = None; returned = Some returned; object = None }; effect = Effect.Awaits Awaiting.Nothing } }
    {
        Pending {
            step: Step {
                send: None,
                returned: Some(returned),
                object: None,
            },
            effect: Effect::Awaits(Awaiting::Nothing),
        }
    }

    /// The client awaits nothing more, and its call on objects is over.
    pub(crate) fn ends(returned: Option<Outcome>, object: ObjectOutcome) -> Pending
        ensures { result ≡ record { step = record { send = None; returned = returned; object = Some object }; effect = Effect.Ends } }
    {
        Pending {
            step: Step {
                send: None,
                returned,
                object: Some(object),
            },
            effect: Effect::Ends,
        }
    }
}
