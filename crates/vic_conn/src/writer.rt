//! A payload as a frame.

ghost use Rattle.std.specs.Prelude.{◌≡◌, ◌<◌, ◌≤◌, length, IfOk};
ghost use Rattle.vic_dict.specs.declared.limits.TheConstants.{LONGEST_FRAME};
ghost use Rattle.vic_conn.specs.Frames.{frame_text};

use std::alloc::Global;
use vic_dict::{Bytes, NoMemory};
use vic_fields::{put_bytes, put_u32};

/// The four bytes of the payload's length, the highest first, and the payload. It costs the payload.
pub fn frame(alloc: Global, payload: &[u8]) -> Result<Bytes, NoMemory>
    requires some { 0 < length payload.now }
    requires most { length payload.now ≤ LONGEST_FRAME }
    ensures { IfOk result (λ made. made ≡ frame_text payload.now) }
{
    let mut out = Bytes::new(alloc);
    put_u32(&mut out, payload.len() as u32)?;
    put_bytes(&mut out, payload)?;
    Ok(out)
}
