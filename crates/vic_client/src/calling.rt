//! The call of an operation: the one place from which an Invoke is sent.

ghost use Rattle.std.specs.Prelude.{◌≡◌, ◌+◌, ◌<◌, ◌^◌, IsSome, IfSome, IfOk};
ghost use Rattle.vic_dict.specs.Dictionary.{Fits};
ghost use Rattle.vic_rules.specs.declared.object.Phase.{Phase as APhase};
ghost use Rattle.vic_rules.specs.Client.{Standing, move_to_call};
ghost use Rattle.vic_checks.specs.State.{StandsForState};
ghost use Rattle.vic_client.specs.Sound.{PhaseFits};
ghost use Rattle.vic_client.specs.Hearing.{IsSoundState, IsPendingIn, Hears};
ghost use Rattle.vic_client.specs.Pending.{FitsFrame};

use crate::pending::Pending;
use crate::sending::invoke_payload;
use std::alloc::Global;
use vic_checks::State;
use vic_dict::{NoMemory, Op};
use vic_proxy::Proxy;
use vic_rules::Awaiting;

/// Plans the call of an operation by a client that has called so often: its Invoke is to be sent. `load` says whether it belongs to a
/// load, and `turned` how far the call on objects that it belongs to has then come.
pub(crate) fn call_op(
    alloc: Global,
    state: &State,
    calls: u32,
    op: Op,
    load: bool,
    turned: Proxy,
) -> Result<Pending, NoMemory>
    requires sound { IsSoundState state.now }
    requires fits { Fits op }
    requires few { calls + 1 < 2 ^ 32 }
    requires going { PhaseFits (calls + 1) turned }
    ensures pending { (p : APhase) → PhaseFits calls p → IfOk result (λ r. IsPendingIn state.now calls p r.effect state.now) }
    ensures sends { IfOk result (λ p. IsSome p.step.send) }
    ensures fits { IfOk result (λ p. IfSome p.step.send FitsFrame) }
    ensures taken { (s : Standing) → StandsForState state.now s → s.calls ≡ calls → IfOk result (λ p. Hears state.now p state.now s (move_to_call s turned op load)) }
{
    let seq = calls + 1;
    let sent = invoke_payload(alloc, state, seq, &op)?;
    Ok(Pending::asks(sent, Awaiting::Reply(seq, op, load), seq, turned))
}
