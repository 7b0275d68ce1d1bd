//! What each client was answered last.

ghost use Rattle.std.specs.Prelude.{◌≡◌, None, replicate, IfOk, option_copied};
ghost use Rattle.vic_dict.specs.declared.limits.TheConstants.{MOST_CLIENTS};
ghost use Rattle.vic_attacks.specs.Hostile.{told_to, with_told};

use std::alloc::Global;
use std::marker::Model;
use vic_dict::{Bytes, NoMemory};

/// How many clients have a place.
const PLACES: usize = 64;

/// A place for each of the clients 1 to 64, with the answer that it was given last, if it was given one.
#[derive(Debug, Drop)]
pub(crate) struct Places {
    answers: Vec<Option<Bytes>>,
}

impl Model for Places {
    ghost use Rattle.std.specs.Prelude.{◌≡◌, ℕ, List, Option, length};
    ghost use Rattle.vic_dict.specs.declared.limits.TheConstants.{MOST_CLIENTS};

    ghost Value = { List (Option (List ℕ)) };

    ghost view = { λ a. a.answers.items };

    ghost invariant = { λ a. length a.answers.items ≡ MOST_CLIENTS };
}

impl Places {
    /// Places in which no answer stands.
    pub(crate) fn new(alloc: Global) -> Result<Places, NoMemory>
        ensures { IfOk result (λ made. made ≡ replicate MOST_CLIENTS None) }
    {
        let mut answers = Vec::new(alloc);
        for _ in 0..PLACES {
            answers.push(None)?;
        }
        Ok(Places { answers })
    }

    /// What a client was answered last. Number 0 and numbers above 64 have no place.
    pub(crate) fn answer(&self, who: u8) -> Option<&Bytes>
        ensures { option_copied result ≡ told_to self.now who }
    {
        if who == 0 {
            return None;
        }
        match self.answers.get(who as usize - 1) {
            Some(Some(bytes)) => Some(bytes),
            _ => None,
        }
    }

    /// A client is answered.
    pub(crate) fn set(&mut self, who: u8, bytes: Bytes)
        ensures { self.new ≡ with_told self.old who bytes }
    {
        let place = who as usize;
        if 0 < place && place <= PLACES {
            self.answers[place - 1] = Some(bytes);
        }
    }

    /// The same answers, in memory of their own.
    pub(crate) fn copy(&self, alloc: Global) -> Result<Places, NoMemory>
        ensures { IfOk result (λ made. made ≡ self.now) }
    {
        let mut answers = Vec::new(alloc);
        for answer in &self.answers {
            answers.push(copied(alloc, answer)?)?;
        }
        Ok(Places { answers })
    }
}

fn copied(alloc: Global, answer: &Option<Bytes>) -> Result<Option<Bytes>, NoMemory>
    ensures { IfOk result (λ made. made ≡ answer.now) }
{
    match answer {
        Some(bytes) => Ok(Some(bytes.copy(alloc)?)),
        None => Ok(None),
    }
}
