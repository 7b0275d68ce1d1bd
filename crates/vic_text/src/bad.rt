//! The kinds of bad lines.

ghost use Rattle.std.specs.Prelude.{◌≡◌};
ghost use Rattle.vic_script.specs.Print.{kind_text};
ghost use Rattle.vic_text.specs.BadKinds.{bad_number};

/// By what a line is bad; `line_tests` of `vic_script` has the tests, in which kinds stand by their numbers.
#[derive(Clone, Copy, Debug, PartialEq, Eq)]
pub enum BadKind {
    /// It isn't in the grammar, or not in its place, or a call of the other mode.
    NotALine = 1,
    /// The group has no client of this number.
    NoClient = 2,
    /// A check of the client failed, and it is asked for something.
    Halted = 3,
    /// The client awaits an answer, and is asked for something.
    Busy = 4,
    /// Nothing waits that could be served, taken, changed, or go once more.
    NothingWaits = 5,
    /// No server has this number.
    NoServer = 6,
    /// It reaches past the longest script.
    ScriptTooLong = 7,
}

impl BadKind {
    /// Its number, from 1 to 7, by which definitions speak of it.
    pub fn number(self) -> u8
        ensures { result ≡ bad_number self }
    {
        self as u8
    }

    /// What is printed of it behind the line's number. It takes no memory.
    pub fn text(self) -> &'static [u8]
        ensures { result.now ≡ kind_text (bad_number self) }
    {
        match self {
            BadKind::NotALine => b"not a line of this script",
            BadKind::NoClient => b"no such client",
            BadKind::Halted => b"client has halted",
            BadKind::Busy => b"client is busy",
            BadKind::NothingWaits => b"nothing waiting",
            BadKind::NoServer => b"no such server",
            BadKind::ScriptTooLong => b"script too long",
        }
    }

    /// The kind of a number; the first one, where no kind has it. Both have the same text.
    pub(crate) fn of_number(number: u8) -> BadKind
        ensures { kind_text (bad_number result) ≡ kind_text number }
    {
        match number {
            2 => BadKind::NoClient,
            3 => BadKind::Halted,
            4 => BadKind::Busy,
            5 => BadKind::NothingWaits,
            6 => BadKind::NoServer,
            7 => BadKind::ScriptTooLong,
            _ => BadKind::NotALine,
        }
    }
}
