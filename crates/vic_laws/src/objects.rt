//! The laws on calls on objects: what they return, what they fetch and keep, when one is open, and which contents count as known.

ghost use Rattle.vic_laws.specs.Limits.{NothingIsOpen};
ghost use Rattle.vic_laws.specs.ObjectClaims.{ContentsAre, FetchesSo, KeepsSo, ObjectsEndSo};

/// What a call on objects returns, by what its operation returned and by what was taken: stored where a put is done, removed or absent where
/// a del is, the names where a list is, missing where a get found nothing, and aborted or refused where the operation is. A store is refused
/// where its content is, too. A content is returned exactly where it was taken; a get that found a reference returns nothing yet, and a
/// client that halts returns nothing of it. In a group without objects nothing is returned of one.
pub fn objects_end_so()
    ensures { ObjectsEndSo }
{}

/// A client asks for a content exactly where it took a Wait and a get of its own has found a reference with this hash since it was last
/// asked for something. In a group without objects it asks for none.
pub fn fetches_so()
    ensures { FetchesSo }
{}

/// A client sends a content to be kept exactly where it is asked to store it.
pub fn keeps_so()
    ensures { KeepsSo }
{}

/// The contents that count as known are those that a client sent to be kept, and those that it took.
pub fn contents_are()
    ensures { ContentsAre }
{}

/// A client that awaits nothing has no call on objects open.
pub fn nothing_is_open()
    ensures { NothingIsOpen }
{}
