//! Why no frame can be taken.

use thiserror::Error;
use vic_dict::NoMemory as OutOfMemory;

/// Why no frame was taken. `Zero` and `TooLong` are for good: no later byte mends a length.
#[derive(Clone, Copy, Debug, PartialEq, Eq, Error)]
pub enum FrameFault {
    /// The next frame's length is 0.
    #[error("a frame of no bytes")]
    Zero,
    /// The next frame's length, which is over 16,777,216.
    #[error("a frame of {0} bytes")]
    TooLong(u32),
    /// Memory ran out; the frame is still to be taken.
    #[error("no memory")]
    NoMemory,
}

impl From<OutOfMemory> for FrameFault {
    ghost use Rattle.std.specs.Prelude.{◌≡◌};
    ghost use Rattle.vic_conn.specs.declared.fault.FrameFault.TheVariants.{NoMemory};

    ghost from_gives = { λ _ e. e ≡ NoMemory };

    fn from(_cause: OutOfMemory) -> FrameFault {
        FrameFault::NoMemory
    }
}
