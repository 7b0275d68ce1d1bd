//! The lines of a script, and the places where they end.

ghost use Rattle.std.specs.Prelude.{◌≡◌, ◌<◌, ◌≤◌, ◌+◌, ◌^◌, ◌∷◌, [], length};
ghost use Rattle.vic_script.specs.Lines.{lines_of};
ghost use Rattle.vic_script.specs.Run.{line_end};

use vic_text::split_line;

/// The first line of a text that isn't empty, without its 0a, and what stands behind it.
#[tactic(auto, unfolding(vic_script::specs::Lines::lines_of))]
pub fn first_line(text: &[u8]) -> (&[u8], &[u8])
    requires { 0 < length text.now }
    ensures lines { lines_of text.now ≡ result.0.now ∷ lines_of result.1.now }
    ensures shorter { length result.0.now + length result.1.now ≤ length text.now }
    ensures fewer { length result.1.now < length text.now }
{
    match split_line(text) {
        Some((line, others)) => (line, others),
        None => (text, &[]),
    }
}

/// The place behind a line that begins behind so many bytes; its own 0a, if it has one, belongs to it.
pub fn line_end(total: usize, before: usize, line: &[u8]) -> usize
    requires { before + length line.now < 2 ^ 63 }
    ensures { result ≡ line_end total before line.now }
{
    (before + line.len() + 1).min(total)
}
