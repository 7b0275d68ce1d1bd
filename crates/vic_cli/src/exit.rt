//! The exit code of a status.

ghost use Rattle.std.specs.Prelude.{◌≡◌};
ghost use Rattle.std.specs.Process.{exit_status};
ghost use Rattle.vic_text.specs.Statuses.{status_number};

use std::process::ExitCode;
use vic_text::Status;

/// The code with which a program ends whose command ended so: the status's number.
pub fn code_of(status: Status) -> ExitCode
    ensures { exit_status result ≡ status_number status }
{
    ExitCode::from(status.number())
}
