//! The laws of scripts: in the run of every script the clients step by the rules, whatever its lines do to payloads and servers,
//! so what holds of lawful histories holds of it. Where no line tampers with what the one server answers, it is a run of clients
//! with one honest server, and what holds of those holds of it. In a group with objects most of that asks that no two different
//! contents that clients sent have one hash.
//!
//! This crate has no code of its own. `specs/Claims.antt` and `specs/Agreements.antt` state the laws over the definitions of
//! `vic_script`, and each is the contract of a function without parameters and with an empty body. The contract of [`claims_hold`]
//! carries the claim on a group's views to every script. `specs/Reached.antt` says what holds of the scenes that lines reach.
#![tactic(auto)]

ghost use Rattle.vic_runs.specs.Claims.{RunsAreLawful, NothingIsForged, ForgedIs, RunsAreHonest, ClaimsHold, OutcomesAreFates, LoadsAreFated, NobodyHalts, NoLineIsHalted, PrintsAreReturns};
ghost use Rattle.vic_runs.specs.Going.{LinesGoOn};
ghost use Rattle.vic_runs.specs.Prints.{FirstForgedIs, PrintsHaveAgreements, PrintsHaveViews};
ghost use Rattle.vic_runs.specs.Tampering.{HonestLineIs};

pub mod agreements;

/// The history of a script is one of clients that step by the rules.
pub fn runs_are_lawful()
    ensures { RunsAreLawful }
{}

/// In the run of an honest script every tag that a client takes was made by a client before.
pub fn nothing_is_forged()
    ensures { NothingIsForged }
{}

/// The test for forged histories says what it is for.
pub fn forged_is()
    ensures { ForgedIs }
{}

/// The run of an honest script is a run of clients with one honest server.
pub fn runs_are_honest()
    ensures { RunsAreHonest }
{}

/// The claim on a group's views, of every script, and on what its loads return.
pub fn claims_hold()
    ensures { ClaimsHold }
{}

/// Each call that an honest script completes returns what becomes of it in the server's log, where contents are apart.
pub fn outcomes_are_fates()
    ensures { OutcomesAreFates }
{}

/// Each content that a load returns in the run of an honest script is that of the last done store of its name, in the order of the
/// server's log, where contents are apart.
pub fn loads_are_fated()
    ensures { LoadsAreFated }
{}

/// In the run of an honest script no client halts, where contents are apart.
pub fn nobody_halts()
    ensures { NobodyHalts }
{}

/// No line of an honest script is bad for that its client has halted, where contents are apart.
pub fn no_line_is_halted()
    ensures { NoLineIsHalted }
{}

/// What the lines of a script print is what its steps returned, in their order.
pub fn prints_are_returns()
    ensures { PrintsAreReturns }
{}

/// The lines that aren't honest are those that tamper.
pub fn honest_line_is()
    ensures { HonestLineIs }
{}

/// The first step at which a forged text was taken, and the first such text of its payload.
pub fn first_forged_is()
    ensures { FirstForgedIs }
{}

/// A print without a bad line has the view of each client, and for each two clients how far their views agree.
pub fn prints_have_ends()
    ensures views { PrintsHaveViews }
    ensures agreements { PrintsHaveAgreements }
{}

/// Behind an honest line the run is the one before it with the events of the line.
pub fn lines_go_on()
    ensures { LinesGoOn }
{}
