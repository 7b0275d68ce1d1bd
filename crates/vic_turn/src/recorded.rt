//! What a turn lock asks of its value.
ghost use Rattle.std.specs.Prelude.{◌≡◌, ℕ, List, ◌++◌, Option, IfOk, OnErr};
ghost use Rattle.vic_change.specs.declared.Change.{Change};
ghost use Rattle.vic_change.specs.Changes.{change_added};

use std::alloc::Global;
use vic_dict::NoMemory;

/// A value that keeps the list of its changes.
pub trait Recorded {
    type Reply;

    /// What `apply` never changes. No value of it is made.
    type Fixed;

    ghost fixed: { Self → Self.Fixed };

    ghost changes: { Self → List Change };

    /// The reply, by the fixed part, the changes before, who asks, and the payload.
    ghost replies: { Self.Fixed → List Change → ℕ → List ℕ → Self.Reply };

    /// Who and what is recorded, if anything: by the same, and the seat.
    ghost records: { Self.Fixed → List Change → ℕ → List ℕ → ℕ → Option (ℕ × List ℕ) };

    /// What holds of each reply.
    ghost fits: { Self.Reply → Type 0 };

    /// One request: the reply, and at most one change.
    fn apply(
        &mut self,
        alloc: Global,
        seat: u32,
        who: u8,
        payload: &[u8],
    ) -> Result<Self::Reply, NoMemory>
        ensures kept { fixed self.new ≡ fixed self.old }
        ensures reply { IfOk result (λ r. r ≡ replies (fixed self.old) (changes self.old) who payload.now) }
        ensures change { IfOk result (λ _. changes self.new ≡ changes self.old ++ change_added seat (records (fixed self.old) (changes self.old) who payload.now seat)) }
        ensures fits { IfOk result fits }
        ensures refused { OnErr result (changes self.new ≡ changes self.old) };
}
