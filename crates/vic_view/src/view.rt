//! Views, and how far two of them agree.

ghost use Rattle.std.specs.Prelude.{◌≡◌, ◌<◌, ◌≤◌, ◌^◌, [], ◌∷◌, ◌++◌, ◌&&◌, length, IfOk, OnOk, OnErr, slice_get, Some, nat_eq};
ghost use Rattle.vic_script.specs.Print.{same_shown as same_shown_test, agreement};
ghost use Rattle.vic_view.specs.Together.{rows_of};

use crate::together::{Line, Rows, together};
use std::alloc::Global;
use std::marker::Model;
use vic_dict::NoMemory;
use vic_rules::{Shown, same_entry};

/// The calls of a client's view, the oldest first.
#[derive(Debug, Drop)]
pub struct View {
    items: Vec<Shown>,
}

impl Model for View {
    ghost use Rattle.std.specs.Prelude.{List};
    ghost use Rattle.vic_rules.specs.declared.trace.Shown.{Shown};

    ghost Value = { List Shown };

    ghost view = { λ a. a.items.items };
}

impl View {
    /// The empty view; it takes no memory.
    pub fn new(alloc: Global) -> View
        ensures { result ≡ [] }
    {
        View {
            items: Vec::new(alloc),
        }
    }

    /// The number of calls.
    pub fn len(&self) -> usize
        ensures { result ≡ length self.now }
    {
        self.items.len()
    }

    /// All calls, the oldest first.
    pub fn as_slice(&self) -> &[Shown]
        ensures { result.now ≡ self.now }
    {
        self.items.as_slice()
    }

    /// The call at a place, counted from 0.
    pub fn at(&self, place: usize) -> &Shown
        requires { place < length self.now }
        ensures { slice_get self.now place ≡ Some result.now }
    {
        &self.items[place]
    }

    /// Puts a call last.
    pub fn push(&mut self, shown: Shown) -> Result<(), NoMemory>
        ensures ok { OnOk result (self.new ≡ self.old ++ shown ∷ []) }
        ensures err { OnErr result (self.new ≡ self.old) }
    {
        self.items.push(shown)?;
        Ok(())
    }
}

fn same_shown(a: &Shown, b: &Shown) -> bool
    ensures { result ≡ same_shown_test a.now b.now }
{
    same_entry(&a.entry, &b.entry) && a.outcome == b.outcome
}

/// How many calls two views have in common at their front.
pub(crate) fn common_calls(left: &[Shown], right: &[Shown]) -> usize
    ensures value { result ≡ agreement left.now right.now }
    ensures short { result ≤ length left.now }
{
    let mut common = 0;
    for (i, shown) in left.iter().enumerate() {
        if !(i < right.len() && same_shown(shown, &right[i])) {
            return common;
        }
        common += 1;
    }
    common
}

/// The same, where so many are known to be. It costs the others.
fn common_calls_beyond(left: &[Shown], right: &[Shown], known: usize) -> usize
    requires first { known ≤ length left.now }
    requires second { known ≤ length right.now }
    requires common { known ≤ agreement left.now right.now }
    ensures { result ≡ agreement left.now right.now }
{
    known + common_calls(&left[known..], &right[known..])
}

impl Line for View {
    ghost in_common = { agreement };

    fn common_beyond(&self, other: &View, known: usize) -> usize {
        common_calls_beyond(self.as_slice(), other.as_slice(), known)
    }
}

/// How many calls each two views have in common at their front. It costs the views, and a number for each two of them.
pub(crate) fn agreements(alloc: Global, views: &[View]) -> Result<Rows, NoMemory>
    ensures { IfOk result (λ rows. rows ≡ rows_of agreement views.now) }
{
    together(alloc, views)
}

/// How many calls two views have in common at their front. It takes no memory, and costs that number.
pub fn agree(a: &View, b: &View) -> u32
    requires { length a.now < 2 ^ 32 }
    ensures { result ≡ agreement a.now b.now }
{
    common_calls(a.as_slice(), b.as_slice()) as u32
}
