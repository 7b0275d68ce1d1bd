//! The laws on what words of the claim mean, on how far a client stands from its highest seal, and on what texts tell.

ghost use Rattle.vic_laws.specs.ByCases.{RealTimeIs, TookIs, TextsTakenAre, TextsMadeAre, ViewsEnd};
ghost use Rattle.vic_laws.specs.Fields.{GenesisTells, InvokeTells, CommitTells, SealTells, KindsApart};
ghost use Rattle.vic_laws.specs.Limits.{OwnStandAbove, PathsStayNear};

/// A call had returned before another was made exactly where its answer stands before that call in the history.
pub fn real_time_is()
    ensures { RealTimeIs }
{}

/// What was taken at a step is what came and didn't halt the client; its texts are those of its entries and of its seal.
pub fn taken_are()
    ensures answers { TookIs }
    ensures texts { TextsTakenAre }
{}

/// A text that counts as made went, as the tag's, with a request that its client sent.
pub fn made_are()
    ensures { TextsMadeAre }
{}

/// A view ends where its client last completed a call.
pub fn views_end()
    ensures { ViewsEnd }
{}

/// A client's own calls that aren't sealed stand above its highest seal, and its path goes at most 1,024 entries beyond it, also where
/// tags were forged.
pub fn seals_stay_near()
    ensures own { OwnStandAbove }
    ensures path { PathsStayNear }
{}

/// Texts tell all their fields, and texts with a tag their kind.
pub fn texts_tell()
    ensures genesis { GenesisTells }
    ensures calls { InvokeTells }
    ensures commits { CommitTells }
    ensures seals { SealTells }
    ensures kinds { KindsApart }
{}
