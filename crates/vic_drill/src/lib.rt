//! A drill: a run of clients with one honest server, whose acts are drawn from a number.
//!
//! `specs/Drills.antt` says what a drill does and prints, `specs/Laws.antt` what holds of each.
#![tactic(auto)]

ghost use Rattle.vic_drill.specs.Laws.{DrillsAreHonest};

/// Every drill is an honest run: no client halts, each call returns what becomes of it in the server's log, and the other laws of
/// honest runs hold.
pub fn drills_are_honest()
    ensures { DrillsAreHonest }
{}
