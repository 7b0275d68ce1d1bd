//! What a pass or a note knows.
use std::collections::LinkedList;
use vic_change::Change;

/// No value of it is made.
pub struct View<F> {
    /// None of a spent view.
    pub fixed: Option<F>,
    /// The changes that it has seen.
    pub seen: LinkedList<Change>,
    /// What joined notes and passes had seen.
    pub told: LinkedList<LinkedList<Change>>,
    /// The numbers that it stands for, each with its changes. A note has none.
    pub held: LinkedList<(u32, LinkedList<Change>)>,
    /// The ticket that it drew, until its turn has ended.
    pub ticket: Option<u64>,
    /// While its turn lasts, all changes.
    pub known: Option<LinkedList<Change>>,
    /// It makes the passes, and stands for none.
    pub makes: bool,
    /// How many it made.
    pub made: u32,
}
