//! What the clients of a group did, step by step.

ghost use Rattle.std.specs.Prelude.{◌≡◌, ◌<◌, [], ◌∷◌, ◌++◌, length, OnOk, OnErr, slice_get, Some};
ghost use Rattle.vic_view.specs.Transcripts.{transcript_steps};

use std::alloc::Global;
use std::marker::Model;
use vic_dict::{Mode, NoMemory};
use vic_rules::TraceStep;
use vic_tag::GroupKey;

/// A list of steps, the oldest first.
#[derive(Debug, Drop)]
pub(crate) struct TraceSteps {
    items: Vec<TraceStep>,
}

impl Model for TraceSteps {
    ghost use Rattle.std.specs.Prelude.{List};
    ghost use Rattle.vic_rules.specs.declared.trace.TraceStep.{TraceStep};

    ghost Value = { List TraceStep };

    ghost view = { λ a. a.items.items };
}

impl TraceSteps {
    fn new(alloc: Global) -> TraceSteps
        ensures { result ≡ [] }
    {
        TraceSteps {
            items: Vec::new(alloc),
        }
    }

    fn len(&self) -> usize
        ensures { result ≡ length self.now }
    {
        self.items.len()
    }

    fn as_slice(&self) -> &[TraceStep]
        ensures { result.now ≡ self.now }
    {
        self.items.as_slice()
    }

    fn at(&self, place: usize) -> &TraceStep
        requires { place < length self.now }
        ensures { slice_get self.now place ≡ Some result.now }
    {
        &self.items[place]
    }

    fn push(&mut self, step: TraceStep) -> Result<(), NoMemory>
        ensures ok { OnOk result (self.new ≡ self.old ++ step ∷ []) }
        ensures err { OnErr result (self.new ≡ self.old) }
    {
        self.items.push(step)?;
        Ok(())
    }
}

/// A group's kind, how many clients it has, its key, and the steps of all its clients, the oldest first.
#[derive(Debug, Drop)]
pub struct Transcript {
    /// Whether the group has objects.
    pub mode: Mode,
    /// How many clients, 1 to 64.
    pub count: u8,
    /// The key that the clients share.
    pub key: GroupKey,
    /// Each step of a client, the oldest first.
    steps: TraceSteps,
}

impl Transcript {
    /// A transcript without steps; it takes no memory.
    pub fn new(alloc: Global, mode: Mode, count: u8, key: GroupKey) -> Transcript
        ensures mode { result.mode ≡ mode }
        ensures count { result.count ≡ count }
        ensures key { result.key ≡ key }
        ensures steps { transcript_steps result ≡ [] }
    {
        Transcript {
            mode,
            count,
            key,
            steps: TraceSteps::new(alloc),
        }
    }

    /// The number of steps.
    pub fn len(&self) -> usize
        ensures { result ≡ length (transcript_steps self.now) }
    {
        self.steps.len()
    }

    /// The step at a place, counted from 0.
    pub fn at(&self, place: usize) -> &TraceStep
        requires { place < length (transcript_steps self.now) }
        ensures { slice_get (transcript_steps self.now) place ≡ Some result.now }
    {
        self.steps.at(place)
    }

    /// All steps, the oldest first.
    pub fn as_slice(&self) -> &[TraceStep]
        ensures { result.now ≡ transcript_steps self.now }
    {
        self.steps.as_slice()
    }

    /// Puts a step last.
    pub fn push(&mut self, step: TraceStep) -> Result<(), NoMemory>
        ensures mode { self.new.mode ≡ self.old.mode }
        ensures count { self.new.count ≡ self.old.count }
        ensures key { self.new.key ≡ self.old.key }
        ensures ok { OnOk result (transcript_steps self.new ≡ transcript_steps self.old ++ step ∷ []) }
        ensures err { OnErr result (transcript_steps self.new ≡ transcript_steps self.old) }
    {
        self.steps.push(step)
    }
}
