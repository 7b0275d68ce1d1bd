//! The laws on the order of calls, and on what a client decides of its call.

ghost use Rattle.vic_laws.specs.AskedClaims.{AskedAreCalled, CallsAreAsked};
ghost use Rattle.vic_laws.specs.CountClaims.{SendsAreFew};
ghost use Rattle.vic_laws.specs.OrderClaims.{CompletedOnce, CompletionsAre, SameOpIs, SameEntryIs, LeastAboveIs, NoneAboveIs, ConfirmedIs, ConfirmedByOwner, DoneMeetsNoConflict, AbortedByTheLeast, AnswersStand, ViewsAgree, ViewsComplete, ViewsInRealTime, ViewsShowOnlyCalls};

/// The tests of equality of operations and of entries find what is equal.
pub fn same_op_is()
    ensures ops { SameOpIs }
    ensures entries { SameEntryIs }
{}

/// The search for the least position finds it.
pub fn least_above_is()
    ensures found { LeastAboveIs }
    ensures none { NoneAboveIs }
{}

/// A path is confirmed by the one completion with this path.
pub fn confirmed_is()
    ensures found { ConfirmedIs }
    ensures owner { ConfirmedByOwner }
{}

/// A call that is done conflicts with no entry of another client above the seal of its Reply and below itself, whatever its owner made of
/// that one.
pub fn done_meets_no_conflict()
    ensures { DoneMeetsNoConflict }
{}

/// A call is aborted exactly by the least such entry.
pub fn aborted_by_the_least()
    ensures { AbortedByTheLeast }
{}

/// The answer of a call that is done stands, whichever entries of others between the Reply's seal and the call take effect.
pub fn answers_stand()
    ensures { AnswersStand }
{}

/// Every two views agree up to each call that stands in both.
pub fn agreement()
    ensures { ViewsAgree }
{}

/// Each view shows only calls that were made and answered so.
pub fn only_calls()
    ensures { ViewsShowOnlyCalls }
{}

/// Each view has all that its client completed, and each such call once.
pub fn complete()
    ensures { ViewsComplete }
{}

/// Unless a tag was forged, each view keeps real-time order.
pub fn real_time()
    ensures { ViewsInRealTime }
{}

/// A call has at most one completion, so it is completed on at most one path.
pub fn completed_once()
    ensures { CompletedOnce }
{}

/// The completions are the calls that were made and answered by Done or Aborted.
pub fn completions_are()
    ensures { CompletionsAre }
{}

/// A client sends no more than three requests for each call that it made, and one more for each poll, sync, store and load that it was
/// asked for.
pub fn sends_are_few()
    ensures { SendsAreFew }
{}

/// A client calls an operation only where it is asked for it, or was asked at its step before for the store that puts it, and the numbers
/// of its calls rise by one.
pub fn calls_are_asked()
    ensures { CallsAreAsked }
{}

/// A client that is asked for a call makes it at that step. One that is asked for a store sends its content, and calls the put where it
/// took that the content is kept.
pub fn asked_are_called()
    ensures { AskedAreCalled }
{}
