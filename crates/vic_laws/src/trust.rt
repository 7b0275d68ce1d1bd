//! The laws on tags, hashes and seals, and on what views answer and leave.

ghost use Rattle.vic_laws.specs.Meanings.{AbortedByConflict, ApartIs, LegalIs, LawfulByClient, ListedAre, SealedAnswersStand};
ghost use Rattle.vic_laws.specs.ContentClaims.{LoadsGetTheLast};
ghost use Rattle.vic_laws.specs.Claims.{CommitsTell, DictionariesAreProper, HashesTellPaths, PartsAreProper, SealsHold, TagsHold, ViewsAreLegal, ViewsLeaveProper};

/// One hash tells one path.
pub fn prefixes()
    ensures { HashesTellPaths }
{}

/// What a client takes came with its tag.
pub fn tags()
    ensures { TagsHold }
{}

/// What a seal says holds, and it stands within its client's path.
pub fn seals()
    ensures { SealsHold }
{}

/// Each answer in a view is that of a dictionary after the calls before it.
pub fn legal()
    ensures { ViewsAreLegal }
{}

/// Each dictionary is proper: what a front of a path leaves, what a view leaves, and the part of an answer.
pub fn dictionaries_are_proper()
    ensures paths { DictionariesAreProper }
    ensures views { ViewsLeaveProper }
    ensures parts { PartsAreProper }
{}

/// A commit whose text was made is that of a call that its owner completed so, on this very path.
pub fn commits()
    ensures { CommitsTell }
{}

/// A view is legal exactly where each of its calls was aborted, or has the answer of what the calls below it leave.
pub fn legal_is()
    ensures { LegalIs }
{}

/// The listed texts are those of a list that is worked out.
pub fn listed_are()
    ensures { ListedAre }
{}

/// A history is lawful exactly where its steps are members' and those of each client are a lawful history by themselves.
pub fn lawful_by_client()
    ensures { LawfulByClient }
{}

/// A call is aborted exactly by the least entry of another client, between the seal of its Reply and itself, that conflicts with it.
pub fn aborted_by_conflict()
    ensures { AbortedByConflict }
{}

/// The test of the listed texts fails exactly where two of them collide.
pub fn apart_is()
    ensures { ApartIs }
{}

/// The answer of a call that is done is that of what is sealed, whichever entries of others above the seal take effect.
pub fn sealed_answers_stand()
    ensures { SealedAnswersStand }
{}

/// A load returns what the last done store of its name stored.
pub fn contents()
    ensures { LoadsGetTheLast }
{}
