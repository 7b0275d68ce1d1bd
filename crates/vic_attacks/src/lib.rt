//! Servers that misbehave by themselves, as definitions: each answers so many requests by the rule of `vic_order`, and later ones in
//! its own way.
//!
//! What each of them answers is `by_kind` of `specs/Hostile.antt`. [`HostileKind`] says how one misbehaves. [`early`] and [`honest`]
//! are the laws on when none does, and [`count_suffices`] says that it doesn't matter where the count stops.
#![tactic(auto)]

ghost use Rattle.std.specs.Prelude.{◌≡◌, ◌+◌, ◌*◌, ◌≤◌, List, length, nat_le, nat_lt};
ghost use Rattle.vic_order.specs.Serving.{AnswersAs, Request, answers_to, by_rule};
ghost use Rattle.vic_attacks.specs.declared.HostileKind.TheVariants as kind;
ghost use Rattle.vic_attacks.specs.Hostile.{Hostile, by_kind, is_late, number};

/// How a server misbehaves, once it has served so many requests.
#[derive(Clone, Copy, Debug, PartialEq, Eq)]
pub enum HostileKind {
    /// It doesn't.
    Honest,
    /// It serves as many requests again, and then goes back to where it stood before them.
    Rollback,
    /// From then on, clients with odd numbers and those with even numbers have each a server of their own.
    Fork,
    /// It gives each client again what it told this client last.
    Replay,
    /// It tells the entries of a Reply in reverse order, all but the last.
    Swap,
    /// Its parts are those of the empty dictionary.
    BadProof,
    /// Its parts are those of the dictionary as it stood then.
    Stale,
    /// Its answers lack their last byte.
    Truncate,
}

/// Law: whatever the kind, the first so many requests are answered as by the server that goes on in it.
pub fn early()
    ensures { (h : Hostile) (requests : List Request) → h.count + length requests ≤ h.after → answers_to by_kind h requests ≡ answers_to by_rule h.going requests }
{}

/// Law: a server of the kind that doesn't misbehave answers as the one does that goes on in it, whatever the requests.
pub fn honest()
    ensures { (h : Hostile) → h.kind ≡ kind.Honest → AnswersAs by_kind h h.going }
{}

/// Law: with at most 1,000,000 early requests the count might as well never stop: whether a request is late, and whether it is one of
/// as many again, is so of its true number.
pub fn count_suffices()
    ensures { (h : Hostile) → h.after ≤ 1000000 → (is_late h ≡ nat_lt h.after (h.count + 1)) × (nat_le (number h) (2 * h.after) ≡ nat_le (h.count + 1) (2 * h.after)) }
{}
