//! What is shown of frames: statements with their proofs, and no code that runs.
//!
//! Each law is the contract of a function without parameters and with an empty body; its words stand in `specs/FrameLaws.antt`.

ghost use Rattle.vic_conn.specs.FrameLaws.{AnyPieces, FrontsAre, OneByOne, ReadsBack, StaysDecided};

/// What later bytes can't change.
pub fn stays_decided()
    ensures { StaysDecided }
{}

/// All frames of a stream are the first one and those behind it.
pub fn one_by_one()
    ensures { OneByOne }
{}

/// The frames are the same however the stream is cut into pieces.
pub fn any_pieces()
    ensures { AnyPieces }
{}

/// What `frame` writes is read back.
pub fn reads_back()
    ensures { ReadsBack }
{}

/// What bytes are in front of which a frame, a broken length or neither stands.
pub fn fronts_are()
    ensures { FrontsAre }
{}
