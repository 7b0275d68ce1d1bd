//! What is shown of talks and of sessions: statements with their proofs, and no code that runs.

ghost use Rattle.vic_session.specs.Laws.{SessionsAreComplete, SessionsAreLawful, TalksAreLawful};

/// The steps of a talk are a lawful history of its client alone.
pub fn talks_are_lawful()
    ensures { TalksAreLawful }
{}

/// The steps that a client makes in a session are a lawful history of it alone.
pub fn sessions_are_lawful()
    ensures { SessionsAreLawful }
{}

/// A session whose link gives what it awaits ends well, unless memory runs out.
pub fn sessions_are_complete()
    ensures { SessionsAreComplete }
{}
