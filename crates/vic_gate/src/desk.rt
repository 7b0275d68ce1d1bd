//! What answers requests.

ghost use Rattle.std.specs.Prelude.{ℕ, List, Option, ◌≤◌, length, IfOk};
ghost use Rattle.std.specs.Result.{result_ok};
ghost use Rattle.vic_wire.specs.declared.message.ToClient.{ToClient as AnAnswer};
ghost use Rattle.vic_wire.specs.Messages.{HasSpelling, answer_text};

use std::alloc::Global;
use std::sync::Wait;
use vic_dict::NoMemory;
use vic_wire::ToClient;

/// What answers requests, those of each connection with a pass of its own.
pub trait Desk {
    type Pass;

    /// The pass is one of this desk's.
    ghost owns: { Self → Self.Pass → Type 0 };

    /// The desk, the pass before, who asks, the payload, the answer (none where there was no memory), and the pass after.
    ghost answers: { Self → Self.Pass → ℕ → List ℕ → Option AnAnswer → Self.Pass → Type 0 };

    /// Answers one request.
    fn answer<R: Wait>(
        &self,
        rt: &R,
        alloc: Global,
        pass: &mut Self::Pass,
        who: u8,
        payload: &[u8],
    ) -> Result<ToClient, NoMemory>
        requires { owns self.now pass.old }
        ensures owns { owns self.now pass.new }
        ensures step { answers self.now pass.old who payload.now (result_ok result) pass.new }
        ensures spelled { IfOk result (λ a. HasSpelling a) }
        ensures short { IfOk result (λ a. length (answer_text a) ≤ 16777211) };
}
