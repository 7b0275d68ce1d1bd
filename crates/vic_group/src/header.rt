//! The header of a script: the kind of the group, how many clients it has, its key, and how its server misbehaves.

ghost use Rattle.std.specs.Prelude.{◌≡◌, ◌≤◌, ◌&&◌, [], IfOk, Some, None, is_none, option_map, unwrap_or};
ghost use Rattle.vic_script.specs.Lines.{line_of, kind_named as kind_by};
ghost use Rattle.vic_script.specs.Run.{zero_key as zeros, no_attack, opening_by, group_in, mode_in, scene_in, Before, Heads};
ghost use Rattle.vic_runs.specs.Claims.{FitsLine};
ghost use Rattle.vic_view.specs.Transcripts.{transcript_group, transcript_history};
ghost use Rattle.vic_group.specs.World.{ShowsScene};
ghost use Rattle.vic_group.specs.Playing.{state, header_by, progress_by, HasFew, Leads};

use crate::opening::{spelled_key, zero_key};
use crate::world::World;
use std::alloc::Global;
use std::marker::Model;
use vic_dict::{Bytes, Mode, NoMemory};
use vic_hostile::{Hostile, HostileKind};
use vic_server::Served;
use vic_tag::GroupKey;
use vic_text::{BadKind, Line, LineFault, kind_named, read_line};
use vic_view::Transcript;

/// How a server misbehaves, and after how many requests, at most 1,000,000.
#[derive(Drop)]
pub(crate) struct Attack {
    /// One of the seven ways, by its name in the line.
    kind: HostileKind,
    /// How many requests are served by the rule before.
    after: u32,
}

impl Model for Attack {
    ghost use Rattle.std.specs.Prelude.{◌≤◌};
    ghost use Rattle.vic_script.specs.Run.{Attack};

    ghost Value = { Attack };

    ghost view = { λ a. record { kind = a.kind; after = a.after } };

    ghost invariant = { λ a. a.after ≤ 1000000 };
}

/// A header, as far as it goes: the kind of the group, the number of its clients, and its key and how its server misbehaves, once a line
/// has named them.
#[derive(Drop)]
pub(crate) struct Header {
    /// By `clients` or `objects`.
    pub(crate) mode: Mode,
    /// How many clients, 1 to 64.
    pub(crate) count: u8,
    /// None without a `key` line: the key is 32 zero bytes.
    pub(crate) key: Option<GroupKey>,
    /// None without a `hostile` line: the server is honest.
    pub(crate) hostile: Option<Attack>,
}

/// What a line comes to before the first event.
#[derive(Drop)]
pub(crate) enum Headed {
    /// It leads on to this header; to none where the header hasn't begun.
    Goes(Option<Header>),
    /// It isn't of the header, which stays like this: an event follows, or a bad line.
    Ends(Header),
    /// It is bad by this kind, behind so much of a header.
    Bad(Option<Header>, u8),
}

/// Reads a line behind this much of a header.
pub(crate) fn head_line(
    alloc: Global,
    header: Option<Header>,
    text: &[u8],
) -> Result<Headed, NoMemory>
    requires { HasFew header }
    ensures { IfOk result (λ r. Leads (progress_by header) (line_of (mode_in (scene_in (progress_by header))) text.now) r) }
{
    match header {
        None => opening_line(alloc, text),
        Some(header) => later_line(alloc, header, text),
    }
}

/// Reads a line before the header has begun.
fn opening_line(alloc: Global, text: &[u8]) -> Result<Headed, NoMemory>
    ensures { IfOk result (λ r. Leads Before (line_of None text.now) r) }
{
    match read_line(alloc, text, None) {
        Ok(Line::Skip) => Ok(Headed::Goes(None)),
        Ok(Line::Clients(count)) => Ok(begun(Mode::Plain, count)),
        Ok(Line::Objects(count)) => Ok(begun(Mode::Objects, count)),
        Ok(_) | Err(LineFault::Grammar) => Ok(Headed::Bad(None, BadKind::NotALine.number())),
        Err(LineFault::NoMemory) => Err(NoMemory),
    }
}

/// A header begins, of a group of this kind with so many clients.
fn begun(mode: Mode, count: u8) -> Headed
    ensures { result ≡ Headed.Goes (Some (record { mode = mode; count = count; key = None; hostile = None })) }
{
    Headed::Goes(Some(Header {
        mode,
        count,
        key: None,
        hostile: None,
    }))
}

/// Reads a line behind the first one of a header.
fn later_line(alloc: Global, header: Header, text: &[u8]) -> Result<Headed, NoMemory>
    requires { HasFew (Some header) }
    ensures { IfOk result (λ r. Leads (Heads (header_by header)) (line_of (Some header.mode) text.now) r) }
{
    match read_line(alloc, text, Some(header.mode)) {
        Ok(line) => behind(alloc, header, &line),
        Err(LineFault::Grammar) => Ok(Headed::Ends(header)),
        Err(LineFault::NoMemory) => Err(NoMemory),
    }
}

/// What a line comes to behind the first one of a header.
fn behind(alloc: Global, header: Header, line: &Line) -> Result<Headed, NoMemory>
    requires few { HasFew (Some header) }
    requires fits { FitsLine line.now }
    ensures { IfOk result (λ r. Leads (Heads (header_by header)) (Some line.now) r) }
{
    match line {
        Line::Skip => Ok(Headed::Goes(Some(header))),
        Line::Key(digits) => keyed(alloc, header, digits),
        Line::Hostile(name, after) => Ok(turned(header, name, *after)),
        _ => Ok(Headed::Ends(header)),
    }
}

/// Whether a key may follow: none did, nor a line that tells how the server misbehaves.
fn may_name_key(header: &Header) -> bool
    ensures { result ≡ (is_none header.now.key && is_none header.now.hostile) }
{
    header.key.is_none() && header.hostile.is_none()
}

/// The header with the key that digits spell; a second key is bad, and so is one behind how the server misbehaves.
fn keyed(alloc: Global, header: Header, digits: &Bytes) -> Result<Headed, NoMemory>
    requires { HasFew (Some header) }
    ensures { IfOk result (λ r. Leads (Heads (header_by header)) (Some (Line.Key digits.now)) r) }
{
    if !may_name_key(&header) {
        return Ok(Headed::Bad(Some(header), BadKind::NotALine.number()));
    }
    let key = spelled_key(alloc, digits.as_slice())?;
    Ok(Headed::Goes(Some(Header {
        mode: header.mode,
        count: header.count,
        key: Some(key),
        hostile: header.hostile,
    })))
}

/// The header with a server that misbehaves in the way of this name after so many requests; a second such line is bad.
fn turned(header: Header, name: &Bytes, after: u32) -> Headed
    requires header { HasFew (Some header) }
    requires most { after ≤ 1000000 }
    ensures { Leads (Heads (header_by header)) (Some (Line.Hostile name.now after)) result }
{
    if header.hostile.is_some() {
        return Headed::Bad(Some(header), BadKind::NotALine.number());
    }
    Headed::Goes(Some(Header {
        mode: header.mode,
        count: header.count,
        key: header.key,
        hostile: attack_of(name, after),
    }))
}

/// How a server misbehaves in the way of this name, if the name tells one.
fn attack_of(name: &Bytes, after: u32) -> Option<Attack>
    requires { after ≤ 1000000 }
    ensures { result ≡ option_map (λ k. record { kind = k; after = after }) (kind_by name.now) }
{
    let kind = kind_named(name.as_slice())?;
    Some(Attack { kind, after })
}

/// The key that a header names, or else that of a script that names none.
fn key_of(alloc: Global, named: Option<GroupKey>) -> Result<GroupKey, NoMemory>
    ensures { IfOk result (λ key. key ≡ unwrap_or named zeros) }
{
    match named {
        Some(key) => Ok(key),
        None => zero_key(alloc),
    }
}

/// How the server of a header misbehaves; where the header names no way, it doesn't.
fn attack_or_none(named: Option<Attack>) -> Attack
    ensures { result ≡ unwrap_or named no_attack }
{
    match named {
        Some(attack) => attack,
        None => Attack {
            kind: HostileKind::Honest,
            after: 0,
        },
    }
}

/// The world that a header opens: its clients have all come in, at one server, which misbehaves as the header names it.
pub(crate) fn opened(alloc: Global, header: Header) -> Result<World<Hostile>, NoMemory>
    requires { HasFew (Some header) }
    ensures { IfOk result (λ w. ShowsScene state w (opening_by (header_by header))) }
{
    let Header {
        mode,
        count,
        key,
        hostile,
    } = header;
    let key = key_of(alloc, key)?;
    let attack = attack_or_none(hostile);
    let served = Served::gathered(alloc, mode, count)?;
    let server = Hostile::new(attack.kind, attack.after, served);
    World::new(alloc, count, mode, key, server)
}

/// The transcript of a script that stops behind so much of a header: nothing was done in its group, or in a group of one where the
/// header hasn't begun.
pub(crate) fn without_steps(alloc: Global, header: Option<Header>) -> Result<Transcript, NoMemory>
    ensures group { IfOk result (λ t. transcript_group t ≡ group_in (scene_in (progress_by header))) }
    ensures history { IfOk result (λ t. transcript_history t ≡ []) }
{
    let Some(header) = header else {
        return Ok(Transcript::new(alloc, Mode::Plain, 1, zero_key(alloc)?));
    };
    let key = key_of(alloc, header.key)?;
    Ok(Transcript::new(alloc, header.mode, header.count, key))
}
