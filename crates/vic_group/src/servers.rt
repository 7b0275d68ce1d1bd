//! The servers of a script.

ghost use Rattle.std.specs.Prelude.{◌≡◌, Some, None, ◌∷◌, [], true, Ok, is_some, IfSome, IfOk, OnErr};
ghost use Rattle.std.specs.Prelude.{option_map};
ghost use Rattle.vic_script.specs.Lines.{is_server_number};
ghost use Rattle.vic_order.specs.Scenes.{server_at, set_server};
ghost use Rattle.vic_group.specs.World.{states};

use std::alloc::Global;
use vic_dict::{Bytes, NoMemory};
use vic_server::Serve;

/// Servers 1 to 4, as far as they exist; the first always does.
#[derive(Debug, Drop)]
pub struct Servers<S> {
    /// Server 1.
    first: S,
    /// Server 2, once it is made.
    second: Option<S>,
    /// Server 3, once it is made.
    third: Option<S>,
    /// Server 4, once it is made.
    fourth: Option<S>,
}

/// A server, if it is there, serves a payload of a client, whose number is the seat too.
fn serve_by<S: Serve>(
    server: &mut Option<S>,
    alloc: Global,
    who: u8,
    payload: &[u8],
) -> Result<Option<Bytes>, NoMemory>
    ensures there { IfOk result (λ o. is_some o ≡ is_some (option_map S.state server.old)) }
    ensures ok { IfOk result (λ o. IfSome o (λ b. IfSome (option_map S.state server.old) (λ v. (b ≡ (S.rule v who who payload.now).0) × (option_map S.state server.new ≡ Some (S.rule v who who payload.now).1)))) }
    ensures none { result ≡ Ok None → option_map S.state server.new ≡ option_map S.state server.old }
    ensures err { OnErr result (server.new ≡ server.old) }
{
    match server {
        None => Ok(None),
        Some(server) => {
            let answer = server.serve(alloc, u32::from(who), who, payload)?;
            Ok(Some(answer))
        }
    }
}

impl<S: Serve + Drop> Servers<S> {
    /// One server, the first.
    pub fn new(first: S) -> Servers<S>
        ensures { states S.state result ≡ Some (S.state first) ∷ None ∷ None ∷ None ∷ [] }
    {
        Servers {
            first,
            second: None,
            third: None,
            fourth: None,
        }
    }

    /// The first server.
    pub fn first(&self) -> &S
        ensures { server_at (states S.state self.now) 1 ≡ Some (S.state result.now) }
    {
        &self.first
    }

    /// The server of a number, if it exists.
    pub fn at(&self, number: u32) -> Option<&S>
        ensures { option_map (λ s. S.state s.now) result ≡ server_at (states S.state self.now) number }
    {
        match number {
            1 => Some(&self.first),
            2 => self.second.as_ref(),
            3 => self.third.as_ref(),
            4 => self.fourth.as_ref(),
            _ => None,
        }
    }

    // The first server serves a payload of a client.
    fn serve_first(
        &mut self,
        alloc: Global,
        who: u8,
        payload: &[u8],
    ) -> Result<Option<Bytes>, NoMemory>
        ensures there { IfOk result (λ o. is_some o ≡ true) }
        ensures ok { IfOk result (λ o. IfSome o (λ b. (b ≡ (S.rule (S.state self.old.first) who who payload.now).0)
            × (states S.state self.new ≡ set_server (states S.state self.old) 1 (Some (S.rule (S.state self.old.first) who who payload.now).1)))) }
        ensures err { OnErr result (self.new ≡ self.old) }
    {
        let answer = self.first.serve(alloc, u32::from(who), who, payload)?;
        Ok(Some(answer))
    }

    /// The server of a number, if it exists, serves a payload of a client. Where memory runs out, nothing has changed.
    pub fn serve(
        &mut self,
        alloc: Global,
        number: u32,
        who: u8,
        payload: &[u8],
    ) -> Result<Option<Bytes>, NoMemory>
        ensures there { IfOk result (λ o. is_some o ≡ is_some (server_at (states S.state self.old) number)) }
        ensures ok { IfOk result (λ o. IfSome o (λ b. IfSome (server_at (states S.state self.old) number) (λ v. (b ≡ (S.rule v who who payload.now).0)
            × (states S.state self.new ≡ set_server (states S.state self.old) number (Some (S.rule v who who payload.now).1))))) }
        ensures none { result ≡ Ok None → states S.state self.new ≡ states S.state self.old }
        ensures err { OnErr result (self.new ≡ self.old) }
    {
        match number {
            1 => self.serve_first(alloc, who, payload),
            2 => serve_by(&mut self.second, alloc, who, payload),
            3 => serve_by(&mut self.third, alloc, who, payload),
            4 => serve_by(&mut self.fourth, alloc, who, payload),
            _ => Ok(None),
        }
    }

    /// A server stands in a place from 1 to 4 from now on.
    pub fn set(&mut self, place: u8, server: S)
        requires { is_server_number place ≡ true }
        ensures { states S.state self.new ≡ set_server (states S.state self.old) place (Some (S.state server)) }
    {
        match place {
            2 => self.second = Some(server),
            3 => self.third = Some(server),
            4 => self.fourth = Some(server),
            _ => self.first = server,
        }
    }
}
