//! Servers of any kind: what they are is a state, and one function of it gives the answers.

ghost use Rattle.std.specs.Prelude.{◌≡◌, IfOk, OnErr};
ghost use Rattle.vic_order.specs.Serving.{Serving, by_rule};

use crate::change::Plan;
use crate::machine::Machine;
use crate::rows::{Commit, Row, SealRow, Seat};
use crate::served::Served;
use std::alloc::Global;
use vic_dict::{Bytes, NoMemory};
use vic_frames::encode_answer;

/// Something that serves payloads with payloads.
pub trait Serve {
    /// What its answers depend on. No value of it is made.
    type State;

    ghost state: { Self → Self.State };

    // The answer to a payload of a client at a seat, and the state after it.
    ghost rule: { Serving Self.State };

    /// Serves one payload. Where memory runs out, nothing has changed.
    fn serve(
        &mut self,
        alloc: Global,
        seat: u32,
        who: u8,
        payload: &[u8],
    ) -> Result<Bytes, NoMemory>
        ensures ok { IfOk result (λ b. (b ≡ (rule (state self.old) seat who payload.now).0) × (state self.new ≡ (rule (state self.old) seat who payload.now).1)) }
        ensures err { OnErr result (self.new ≡ self.old) };

    /// A server in the same state, which from then on goes its own way. It may cost the whole state.
    fn copy(&self, alloc: Global) -> Result<Self, NoMemory>
        ensures { IfOk result (λ made. state made ≡ state self.now) };
}

impl Serve for Served {
    type State = Machine;

    ghost state = { λ s. s.server };

    ghost rule = { by_rule };

    /// One request, as `step` serves it; the answer is encoded before anything changes.
    fn serve(
        &mut self,
        alloc: Global,
        seat: u32,
        who: u8,
        payload: &[u8],
    ) -> Result<Bytes, NoMemory> {
        let Plan { answer, change } = self.plan(alloc, who, payload)?;
        let bytes = encode_answer(alloc, &answer)?;
        self.keep(alloc, seat, who, payload, change)?;
        Ok(bytes)
    }

    /// A copy of all that is kept. It costs the whole state.
    fn copy(&self, alloc: Global) -> Result<Served, NoMemory> {
        self.copied(alloc)
    }
}
