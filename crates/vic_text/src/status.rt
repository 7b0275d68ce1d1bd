//! How a command ends, and the lines that are the same however it came to that end.

ghost use Rattle.std.specs.Prelude.{◌≡◌};
ghost use Rattle.vic_text.specs.Statuses.{status_number, fixed_line};

/// How a command ended; its number is the process's exit status.
#[derive(Clone, Copy, Debug, PartialEq, Eq)]
pub enum Status {
    /// Every line was done.
    Ok = 0,
    /// A tag was forged: a client took it, and no client had made it before.
    TagsNotMade = 1,
    /// The words are none of a command.
    Usage = 2,
    /// A read failed.
    ReadFault = 3,
    /// A write failed.
    WriteFault = 4,
    /// A line is bad.
    BadLine = 5,
    /// Memory ran out.
    NoMemory = 6,
    /// A call of the link or the doors failed, or the link ended while an answer was owed.
    LinkFault = 7,
    /// A check of the client failed.
    Halted = 8,
    /// A frame's length is 0, or over the limit.
    BadFrame = 9,
    /// The server refused the greeting.
    GreetingRefused = 10,
}

impl Status {
    /// The process's exit status.
    pub fn number(self) -> u8
        ensures { result ≡ status_number self }
    {
        self as u8
    }

    /// The line that is printed for it, with its byte 0a, where that line has no number of its own; else nothing. It takes no memory.
    pub fn line(self) -> &'static [u8]
        ensures { result.now ≡ fixed_line self }
    {
        match self {
            Status::Usage => USAGE.as_bytes(),
            Status::ReadFault => b"read fault\n",
            Status::NoMemory => b"no memory\n",
            Status::LinkFault => b"link fault\n",
            Status::BadFrame => b"bad frame\n",
            Status::Ok
            | Status::TagsNotMade
            | Status::WriteFault
            | Status::BadLine
            | Status::Halted
            | Status::GreetingRefused => b"",
        }
    }
}

/// The commands that stand; one more is one line more here, and in the list that the contract has.
const USAGE: &str = concat!(
    "usage: vicos group",
    " | drill NUMBER CLIENTS CALLS",
    " | client ADDRESS ID COUNT KEY MODE",
    " | serve ADDRESS COUNT MODE CONNECTIONS",
    "\n"
);
