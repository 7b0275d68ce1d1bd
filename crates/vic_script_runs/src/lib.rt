//! The events of a script: what its lines do, one line after the other, and nothing else.
//!
//! `specs/Events.antt` defines them. This crate has no code of its own: `specs/Claims.antt` states the laws, and each is the contract
//! of a function without parameters and with an empty body. `specs/Rows.antt` has small scripts, with what comes of them
//! beside them.
#![tactic(auto)]

ghost use Rattle.vic_script_runs.specs.Claims.{HonestRunsAreTheirLines, LinesAddTheirOwn, NoLinesAddNone, ScriptsComeOfTheirLines};
ghost use Rattle.vic_script_runs.specs.Rows.{ForkScriptForks, ForkScriptIs, HeadersHaveThem, KeysStandBefore, KindsHaveNames, NamesAreOfKinds, SmallObjectsScriptIs, SmallScriptIs};

/// Every script comes of the events of its lines, whatever these do.
pub fn scripts_come_of_their_lines()
    ensures { ScriptsComeOfTheirLines }
{}

/// The honest run behind an honest script is the events of its lines.
pub fn honest_runs_are_their_lines()
    ensures { HonestRunsAreTheirLines }
{}

/// No lines have no events, and a line more adds its own in the scene where the lines before it leave off. So the events of each
/// script of such lines are told by `run_of` and `events_of`.
pub fn lines_add_their_own()
    ensures none { NoLinesAddNone }
    ensures adds { LinesAddTheirOwn }
{}

/// The events of small scripts, of a plain group and of one with objects, are those that were written beside them.
pub fn small_script_is()
    ensures plain { SmallScriptIs }
    ensures objects { SmallObjectsScriptIs }
{}

/// The events of a small script whose server misbehaves are those that were written beside it, and its server is such a one.
pub fn fork_script_is()
    ensures events { ForkScriptIs }
    ensures server { ForkScriptForks }
{}

/// Where a `hostile` line may stand, and which words it may have, by small scripts that have one.
pub fn hostile_lines_are()
    ensures keys { KeysStandBefore }
    ensures headers { HeadersHaveThem }
    ensures words { KindsHaveNames }
    ensures kinds { NamesAreOfKinds }
{}
