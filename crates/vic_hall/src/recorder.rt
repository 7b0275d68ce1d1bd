//! The server as a value that a turn lock keeps.

ghost use Rattle.std.specs.Prelude.{◌≤◌, [], length};
ghost use Rattle.vic_wire.specs.Messages.{HasSpelling, answer_text};
ghost use Rattle.vic_server.specs.Replay.{kept_with};
ghost use Rattle.vic_hall.specs.Recording.{answer_after, recorded_after};

use std::alloc::Global;
use vic_dict::NoMemory;
use vic_server::Served;
use vic_turn::recorded::Recorded;
use vic_wire::ToClient;

/// A server whose history a turn lock follows.
#[derive(Drop)]
pub struct Recorder {
    pub served: Served,
}

impl Recorded for Recorder {
    type Reply = ToClient;

    /// What the server was before all changes.
    type Fixed = Served;

    ghost fixed = { λ r. kept_with r.served.opening [] r.served.opening };

    ghost changes = { λ r. r.served.changes };

    ghost replies = { λ f h who payload. answer_after f.opening h who payload };

    ghost records = { λ f h who payload seat. recorded_after f.opening h who payload };

    ghost fits = { λ a. HasSpelling a × (length (answer_text a) ≤ 16777211) };

    #[tactic(auto, using(crate::proofs::Recorded::recorded_is_made))]
    fn apply(
        &mut self,
        alloc: Global,
        seat: u32,
        who: u8,
        payload: &[u8],
    ) -> Result<ToClient, NoMemory> {
        // For the proof alone: the replies are those after the history.
        self.served.keeps_history();
        self.served.step(alloc, seat, who, payload)
    }
}
