//! Where the clients of a transcript stand at its end, read from their steps: the path, the highest seal, and the parts that were
//! taken.

ghost use Rattle.std.specs.Prelude.{◌≡◌, ◌++◌, [], ◌∷◌, IfOk, OnOk, OnErr};
ghost use Rattle.vic_rules.specs.History.{IsLawful};
ghost use Rattle.vic_view.specs.Transcripts.{transcript_group, transcript_history};
ghost use Rattle.vic_apart.specs.Stands.{stand_with, StandsAs, AreStands};

use std::alloc::Global;
use std::marker::Model;
use vic_dict::{Names, NoMemory};
use vic_view::{Places, Transcript, answer_taken, path_of};
use vic_wire::ToClient;

/// Where a client stands: its path, the position of its highest seal, and the parts that it took, the oldest first.
#[derive(Drop)]
pub(crate) struct Stand {
    /// All of it, the oldest first.
    pub(crate) path: Places,
    /// 0 where nothing is sealed.
    pub(crate) sealed: usize,
    /// Their bytes, as they came.
    pub(crate) parts: Names,
}

/// Where the clients 1, 2 and so on stand.
#[derive(Drop)]
pub(crate) struct Stands {
    items: Vec<Stand>,
}

impl Model for Stands {
    ghost use Rattle.std.specs.Prelude.{List};
    ghost use Rattle.vic_apart.specs.declared.stand.Stand.{Stand};

    ghost Value = { List Stand };

    ghost view = { λ a. a.items.items };
}

impl Stands {
    fn new(alloc: Global) -> Stands
        ensures { result ≡ [] }
    {
        Stands {
            items: Vec::new(alloc),
        }
    }

    pub(crate) fn as_slice(&self) -> &[Stand]
        ensures { result.now ≡ self.now }
    {
        self.items.as_slice()
    }

    fn push(&mut self, stand: Stand) -> Result<(), NoMemory>
        ensures ok { OnOk result (self.new ≡ self.old ++ stand ∷ []) }
        ensures err { OnErr result (self.new ≡ self.old) }
    {
        self.items.push(stand)?;
        Ok(())
    }
}

impl Stand {
    /// The client takes an answer. Its path stays as it is.
    fn take(&mut self, answer: Option<ToClient>) -> Result<(), NoMemory>
        ensures { OnOk result (self.new ≡ stand_with answer self.old) }
    {
        match answer {
            Some(ToClient::Reply { seal, part, .. }) => {
                self.sealed = seal.position as usize;
                self.parts.push(part)
            }
            Some(ToClient::Update { seal, part }) => {
                self.sealed = seal.position as usize + 1;
                self.parts.push(part)
            }
            Some(ToClient::Entries { seal, .. }) => {
                self.sealed = seal.position as usize;
                Ok(())
            }
            _ => Ok(()),
        }
    }
}

/// Where a client stands at the end of a transcript. It costs the client's steps, and a look at each of the others.
fn stand_of(alloc: Global, t: &Transcript, client: u8) -> Result<Stand, NoMemory>
    requires { IsLawful (transcript_group t.now) (transcript_history t.now) }
    ensures { IfOk result (StandsAs (transcript_group t.now) client (transcript_history t.now)) }
{
    let path = path_of(alloc, t, client)?;
    let mut stand = Stand {
        path: path.places,
        sealed: 0,
        parts: Names::new(alloc),
    };
    for step in t.as_slice() {
        if step.client == client {
            let answer = answer_taken(alloc, step)?;
            stand.take(answer)?;
        }
    }
    Ok(stand)
}

/// Where all clients stand.
pub(crate) fn all_stands(alloc: Global, t: &Transcript) -> Result<Stands, NoMemory>
    requires { IsLawful (transcript_group t.now) (transcript_history t.now) }
    ensures { IfOk result (AreStands t.now.count (transcript_group t.now) (transcript_history t.now)) }
{
    let mut all = Stands::new(alloc);
    for k in 0..t.count {
        all.push(stand_of(alloc, t, k + 1)?)?;
    }
    Ok(all)
}
