//! Where a session stands in its script.

ghost use Rattle.std.specs.Prelude.{◌≡◌, ◌<◌, ◌≤◌, ◌+◌, ◌^◌, ◌∷◌, [], length};
ghost use Rattle.vic_script.specs.Lines.{lines_of};
ghost use Rattle.vic_script.specs.Run.{line_end};

use vic_text::split_line;
use vic_wire::Digest32;

/// What a client is at.
#[derive(Clone, Copy, Debug, PartialEq, Eq)]
pub enum At {
    /// A call.
    Calls,
    /// A poll or a sync, of which the state is told at its end.
    Tells,
    /// A settling, which may poll so many times more.
    Settles(u16),
    /// Every line was done.
    Leaves,
    /// A bad line of this kind.
    Bad(u8),
    /// A halt at the check with this number, on a payload with this hash.
    Halts(u8, Digest32),
}

/// What is left of a script behind its line, the length of the script and of what stands up to there, the number of the line,
/// and what the client is at.
#[derive(Clone, Copy)]
pub struct Place<'a> {
    /// The bytes behind the line.
    pub rest: &'a [u8],
    /// Bytes of the whole script.
    pub total: usize,
    /// Bytes up to the end of the line.
    pub behind: usize,
    /// Of the line, from 1 on.
    pub number: u32,
    /// What the line has the client do, as far as it isn't over.
    pub doing: At,
}

/// The first line of a text that isn't empty, without its 0a, and what stands behind it.
#[tactic(auto, unfolding(vic_script::specs::Lines::lines_of))]
pub fn first_line(text: &[u8]) -> (&[u8], &[u8])
    requires { 0 < length text.now }
    ensures lines { lines_of text.now ≡ result.0.now ∷ lines_of result.1.now }
    ensures place { line_end (length text.now) 0 result.0.now + length result.1.now ≡ length text.now }
    ensures some { 0 < line_end (length text.now) 0 result.0.now }
    ensures shorter { length result.0.now + length result.1.now ≤ length text.now }
{
    match split_line(text) {
        Some((line, others)) => (line, others),
        None => (text, &[]),
    }
}

/// The place behind a line that begins behind so many bytes; its own 0a, if it has one, belongs to it.
pub fn line_end(total: usize, before: usize, line: &[u8]) -> usize
    requires { before + length line.now < 2 ^ 63 }
    ensures { result ≡ line_end total before line.now }
{
    (before + line.len() + 1).min(total)
}
