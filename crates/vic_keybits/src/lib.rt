//! The bits of keys: nine for each byte, a 1 and then the byte's bits, the highest first; one 0 ends the key, and zeros follow.
//!
//! They are `key_bits` and `shared_bits` of `specs/Bits.antt` of `vic_wire`, and the contract of each function says so. No call
//! takes memory. The words of the two laws at the end stand in `specs/Order.antt`.
#![tactic(auto)]

ghost use Rattle.std.specs.Prelude.{◌≡◌, ℕ, ◌+◌, ◌/◌, ◌^◌, ◌<◌, ◌≤◌, Bool, List, ◌++◌, length, MatchOption, IfSome, nat_eq};
ghost use Rattle.std.specs.List.{starts_with};
ghost use Rattle.vic_dict.specs.declared.limits.TheConstants.{LONGEST_KEY};
ghost use Rattle.vic_wire.specs.Bits.{is_odd, key_bits, key_bit, shared_front, shared_bits};
ghost use Rattle.vic_keybits.specs.LowBits.{low_bits};
ghost use Rattle.vic_keybits.specs.Apart.{AreApartAt};
ghost use Rattle.vic_keybits.specs.Order.{BitOrder, NoneIsPrefix};

/// Bit `i` of the key, counted from 0; past the end it is 0.
pub fn bit(key: &[u8], i: u32) -> bool
    ensures { result ≡ key_bit key.now i }
{
    let place = (i / 9) as usize;
    if place >= key.len() {
        return false;
    }
    let within = i % 9;
    if within == 0 {
        return true;
    }
    (key[place] >> (8 - within)) % 2 == 1
}

/// How many bits the key has.
pub fn bit_count(key: &[u8]) -> u32
    requires { length key.now ≤ LONGEST_KEY }
    ensures { result ≡ length (key_bits key.now) }
{
    9 * key.len() as u32 + 1
}

/// The first place at which the texts differ, or one of them ends.
fn first_apart(a: &[u8], b: &[u8]) -> usize
    ensures { AreApartAt a.now b.now result }
{
    let mut place = 0;
    while place < a.len() && place < b.len() && a[place] == b[place] {
        place += 1;
    }
    place
}

/// At which of its low bits two bytes first differ, the highest of them first.
fn bit_apart(x: u8, y: u8, left: u32) -> u32
    requires bits { (0 < left) × (left ≤ 8) }
    requires same { x / 2 ^ left ≡ y / 2 ^ left }
    requires apart { x ≡ y → ⊥ }
    ensures first { (r s : List Bool) → result ≡ length (shared_front (low_bits left x ++ r) (low_bits left y ++ s)) }
    ensures few { result < left }
{
    let below = left - 1;
    if x >> below != y >> below {
        return 0;
    }
    1 + bit_apart(x, y, below)
}

/// The first bit at which the keys differ, where they do.
pub fn first_difference(a: &[u8], b: &[u8]) -> Option<u32>
    requires first { length a.now ≤ LONGEST_KEY }
    requires second { length b.now ≤ LONGEST_KEY }
    ensures first { MatchOption result (a.now ≡ b.now) (λ i. (a.now ≡ b.now → ⊥) × (i ≡ shared_bits a.now b.now)) }
    ensures few { IfSome result (λ i. i < 2296) }
{
    let place = first_apart(a, b);
    let before = 9 * place as u32;
    if place < a.len() && place < b.len() {
        return Some(before + 1 + bit_apart(a[place], b[place], 8));
    }
    if a.len() == b.len() {
        None
    } else {
        Some(before)
    }
}

/// Whether the key begins with the prefix.
pub fn has_prefix(key: &[u8], prefix: &[u8]) -> bool
    ensures { result ≡ starts_with nat_eq key.now prefix.now }
{
    key.starts_with(prefix)
}

/// Keys are in order exactly where their bits are.
pub fn bit_order()
    ensures { BitOrder }
{}

/// The bits of a key begin those of no other key.
pub fn none_is_prefix()
    ensures { NoneIsPrefix }
{}

#[cfg(test)]
mod tests;
