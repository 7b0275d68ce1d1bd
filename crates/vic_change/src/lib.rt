//! A change that a request made of a server: the connection that it came by, who asked, and the request.
//!
//! The words on lists of changes stand in `specs/Changes.antt`.
#![tactic(auto)]

ghost use Rattle.std.specs.Prelude.{◌≡◌, IfOk};

use std::alloc::Global;
use vic_dict::{Bytes, NoMemory};

/// One change. Lists of changes have the oldest first.
#[derive(Debug, Drop)]
pub struct Change {
    /// The number of the connection, from 1 on.
    pub seat: u32,
    /// The client that the connection had greeted as; 0 for none.
    pub who: u8,
    /// The request, as it was read.
    pub payload: Bytes,
}

impl Change {
    pub fn copy(&self, alloc: Global) -> Result<Change, NoMemory>
        ensures { IfOk result (λ made. made ≡ self.now) }
    {
        let payload = self.payload.copy(alloc)?;
        Ok(Change {
            seat: self.seat,
            who: self.who,
            payload,
        })
    }
}
