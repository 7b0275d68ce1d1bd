//! What a client makes of a payload.

ghost use Rattle.std.specs.Prelude.{◌≡◌, None, Some};

use vic_dict::{Bytes, Outcome};
use vic_rules::ObjectOutcome;

/// What a client sends after a payload, and the outcomes of its call and of its call on objects, where they are over.
#[derive(Debug, Drop)]
pub struct Step {
    /// The payload to send to the server, if there is one.
    pub send: Option<Bytes>,
    /// The outcome of the call, where it is over; halted, where the client is.
    pub returned: Option<Outcome>,
    /// The outcome of the call on objects, where it is over.
    pub object: Option<ObjectOutcome>,
}

impl Step {
    /// The step of a client that halts, or had halted, at this check.
    pub(crate) fn halted(check: u8) -> Step
        ensures { result ≡ record { send = None; returned = Some (Outcome.Halted check); object = None } }
    {
        Step {
            send: None,
            returned: Some(Outcome::Halted(check)),
            object: None,
        }
    }
}
