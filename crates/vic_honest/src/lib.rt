//! The laws of honest runs: what holds where clients with one key use one server that follows its rule. In a group with objects most
//! of them ask that no two different contents that clients sent have one hash (`specs/SafeRuns.antt`); in a plain group that is nothing
//! to ask.
//!
//! This crate has no code of its own. `specs/Claims.antt` states the laws over the definitions of `vic_order` and `vic_rules`, and
//! [`honest_runs_hold`] has those of runs as its contract. Each law is the contract of a function without parameters and with an empty
//! body.
#![tactic(auto)]

ghost use Rattle.vic_honest.specs.Claims.{AbortsLeaveNothing, AbortsAreConflicts, LogsAreLegal, HonestRunsHold, HonestRunsAreLawful};

/// An aborted call leaves nothing.
pub fn aborts_leave_nothing()
    ensures { AbortsLeaveNothing }
{}

/// A call is aborted exactly by the least position at which an entry of another client, not sealed when the call was ordered,
/// conflicts with it.
pub fn aborts_are_conflicts()
    ensures { AbortsAreConflicts }
{}

/// The log with what becomes of its entries is a legal history of the dictionary.
pub fn logs_are_legal()
    ensures { LogsAreLegal }
{}

/// What holds of each scene to which honest events lead, also where two different contents have one hash: the clients stepped by the
/// rules, every tag that a client took was made before, and each client's path is what the server's log was at some time.
pub fn honest_runs_are_lawful()
    ensures { HonestRunsAreLawful }
{}

/// What holds of each scene to which honest events lead, of its server and of the events, where the contents are apart: no client halts,
/// every tag that a client takes was made before, each call returns what becomes of it in the log, and the rest of `HoldsHonestly`.
pub fn honest_runs_hold()
    ensures { HonestRunsHold }
{}
