//! What holds of every lawful history of a group, whatever the payloads hold that its clients take: the parts of the claim, each of
//! use alone. They are laws over the definitions; the functions do nothing.

ghost use Rattle.vic_laws.specs.Claims.{HashesTellPaths, SealsHold, ViewsAreLegal};
ghost use Rattle.vic_laws.specs.ContentClaims.{LoadsGetTheLast};
ghost use Rattle.vic_laws.specs.Meanings.{AbortedByConflict, SealedAnswersStand};
ghost use Rattle.vic_laws.specs.OrderClaims.{AnswersStand, CompletedOnce, DoneMeetsNoConflict, ViewsAgree, ViewsInRealTime, ViewsComplete, ViewsShowOnlyCalls};

/// One hash tells one path, or two different listed texts have one hash.
pub fn prefixes()
    ensures { HashesTellPaths }
{}

/// Unless a tag was forged or two texts collide: each position up to a seal that a client took or made is confirmed, and the seal's
/// root is that of the dictionary which they leave.
pub fn seals()
    ensures { SealsHold }
{}

/// Each view keeps real-time order unless a tag was forged, and every two views agree. A call is completed at most once, so on at
/// most one path.
pub fn order()
    ensures real_time { ViewsInRealTime }
    ensures agree { ViewsAgree }
    ensures once { CompletedOnce }
{}

/// Unless a tag was forged or two texts collide, each view is legal. It holds all completed calls of its client, and only calls. A call
/// that returned done meets no conflict: it conflicts with no entry of another client above the seal of its Reply and below the call;
/// so its answer is the same, whichever of those entries take effect, and is that of what the calls up to that seal leave. A call is
/// aborted exactly by the least such entry that conflicts with it.
pub fn legal()
    ensures legal { ViewsAreLegal }
    ensures done { DoneMeetsNoConflict }
    ensures stands { AnswersStand }
    ensures sealed { SealedAnswersStand }
    ensures aborts { AbortedByConflict }
    ensures complete { ViewsComplete }
    ensures only_calls { ViewsShowOnlyCalls }
{}

/// In a group with objects, unless a tag was forged or two texts collide: a load that returns a content returns that of the last done
/// store of its name before it, in its client's view.
pub fn contents()
    ensures { LoadsGetTheLast }
{}
