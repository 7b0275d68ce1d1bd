//! Whether two different texts of a script's run have one hash.

ghost use Rattle.std.specs.Prelude.{◌≡◌, ◌↔◌, false, IfOk};
ghost use Rattle.vic_rules.specs.Trust.{Collides};
ghost use Rattle.vic_script.specs.Run.{script_group, script_history};
ghost use Rattle.vic_view.specs.Transcripts.{transcript_group, transcript_history};

use crate::play::{Ran, run_script};
use std::alloc::Global;
use vic_apart::are_apart;
use vic_dict::NoMemory;
use vic_view::Transcript;

/// Whether no two different texts of which the claim on a script's run speaks have one SHA-256 value. Where it is true and no tag was
/// forged, which the print of the run tells, all that is claimed of the views holds. Of a script with a bad line it speaks of what was
/// done before that line.
///
/// It costs what the lines of the script cost, and `are_apart` of `vic_apart` over all steps. Each dictionary that is sealed on a
/// client's path is there whole and its texts are hashed anew, so it is meant for small scripts.
pub fn texts_are_apart(alloc: Global, script: &[u8]) -> Result<bool, NoMemory>
    ensures { IfOk result (λ b. (b ≡ false) ↔ Collides (script_group script.now) (script_history script.now)) }
{
    let transcript = transcript_of(alloc, script)?;
    are_apart(alloc, &transcript)
}

/// What the clients of a script do, up to its first bad line.
fn transcript_of(alloc: Global, script: &[u8]) -> Result<Transcript, NoMemory>
    ensures group { IfOk result (λ t. transcript_group t ≡ script_group script.now) }
    ensures history { IfOk result (λ t. transcript_history t ≡ script_history script.now) }
{
    match run_script(alloc, script)? {
        Ran::Whole(world, _) => Ok(world.into_transcript()),
        Ran::Stopped(transcript, _, _) => Ok(transcript),
    }
}
