//! Single words of a command line.

ghost use Rattle.std.specs.Prelude.{◌≡◌, ◌<◌, ◌≤◌, IfSome};
ghost use Rattle.vic_dict.specs.declared.limits.TheConstants.{MOST_CLIENTS};
ghost use Rattle.vic_cli.specs.Arguments.{is_address as address_test, number_in as number_by, small_number as small_number_by, calls_number as calls_number_by, mode_of as mode_by};

use vic_dict::Mode;
use vic_text::word::{is_name, number_of};

/// Whether a word may be an address: it has 1 to 255 bytes. What they mean is the adapter's.
pub fn is_address(word: &[u8]) -> bool
    ensures { result ≡ address_test word.now }
{
    1 <= word.len() && word.len() <= 255
}

/// The number that a word spells in decimal, from 1 up to the greatest.
pub fn number_in(word: &[u8], most: u8) -> Option<u8>
    ensures is { result ≡ number_by most word.now }
    ensures range { IfSome result (λ n. (0 < n) × (n ≤ most)) }
{
    match number_of(word) {
        None => None,
        Some(n) => {
            if 1 <= n && n <= u32::from(most) {
                Some(n as u8)
            } else {
                None
            }
        }
    }
}

/// The number that a word spells in decimal, where that is 1 to 64: so many clients may a group have, and so many connections
/// are served.
pub fn small_number(word: &[u8]) -> Option<u8>
    ensures is { result ≡ small_number_by word.now }
    ensures range { IfSome result (λ n. (0 < n) × (n ≤ MOST_CLIENTS)) }
{
    number_in(word, 64)
}

/// The number of calls that a word spells in decimal, where that is 1 to 100,000.
pub fn calls_number(word: &[u8]) -> Option<u32>
    ensures is { result ≡ calls_number_by word.now }
    ensures range { IfSome result (λ n. (0 < n) × (n ≤ 100000)) }
{
    match number_of(word) {
        Some(n) if 1 <= n && n <= 100_000 => Some(n),
        _ => None,
    }
}

/// The kind of a group: `plain`, with a dictionary of short values, or `objects`, with whole contents.
pub fn mode_of(word: &[u8]) -> Option<Mode>
    ensures { result ≡ mode_by word.now }
{
    if is_name(word, b"plain") {
        Some(Mode::Plain)
    } else if is_name(word, b"objects") {
        Some(Mode::Objects)
    } else {
        None
    }
}
