//! Running a script.

ghost use Rattle.std.specs.Prelude.{◌≡◌, ◌<◌, ◌≤◌, ◌+◌, ◌++◌, ◌^◌, IfOk, length, take, None, []};
ghost use Rattle.vic_script.specs.declared.line.Line.{Line};
ghost use Rattle.vic_script.specs.Lines.{line_of, lines_of};
ghost use Rattle.vic_attacks.specs.Hostile.{by_kind};
ghost use Rattle.vic_script.specs.Scenes.{bad_kind, done_line};
ghost use Rattle.vic_script.specs.Run.{script_limit, Before, Stands, scene_in, run_to_bad_line, run_of, trial_of_line, trial_by, bad_end, run_from};
ghost use Rattle.vic_script.specs.Print.{print_of_script, bad_line, end_text, is_forged};
ghost use Rattle.vic_view.specs.Transcripts.{transcript_group, transcript_history};
ghost use Rattle.vic_runs.specs.Reached.{IsReached};
ghost use Rattle.vic_group.specs.World.{MayDo};
ghost use Rattle.vic_group.specs.Playing.{scene_of, progress_by, HasFew, ShowsItsScene, Tries, trial_at, Follows, ComesTo, end_by, end_of};

use crate::header::{Headed, Header, head_line, opened, without_steps};
use crate::place::{first_line, line_end};
use crate::world::{World, WorldFault};
use std::alloc::Global;
use vic_dict::limits::LONGEST_SCRIPT;
use vic_dict::{Bytes, NoMemory};
use vic_hostile::Hostile;
use vic_text::{BadKind, Line, LineFault, put_bad_line, read_line};
use vic_view::Transcript;

/// How the run of a script ends.
#[derive(Clone, Copy, Debug, PartialEq, Eq)]
pub enum End {
    /// Every line was done, and every tag that was taken had been made before.
    Whole,
    /// Every line was done, and a tag was forged: a client took it, and no client had made it before.
    Forged,
    /// A line is bad.
    Bad,
}

/// What a script's run prints, and how it ends.
#[derive(Debug, Drop)]
pub struct Played {
    /// The bytes to write.
    pub text: Bytes,
    /// Which of the ends it was: it decides the status.
    pub end: End,
}

/// A bad line: its number, from 1 on, and its kind.
#[derive(Clone, Copy, Debug, PartialEq, Eq)]
pub struct BadLine {
    /// Of all lines of the script, from 1 on.
    pub number: u32,
    /// 1 to 7, as docs/PROTOCOL.md has them.
    pub kind: u8,
}

/// What the lines of a script come to.
#[derive(Drop)]
pub(crate) enum Ran {
    /// Every line was done: the world that they left, and what they printed.
    Whole(World<Hostile>, Bytes),
    /// What the clients did before a bad line, what was printed before it, and the bad line.
    Stopped(Transcript, Bytes, BadLine),
}

/// Runs a script, and answers what it prints. What stands behind its byte 16,777,217 isn't looked at. It costs what its lines cost
/// (`World::apply`), and the end of the print (`World::put_views`).
pub fn play(alloc: Global, script: &[u8]) -> Result<Played, NoMemory>
    ensures { IfOk result (λ p. (p.text ≡ print_of_script script.now) × (p.end ≡ end_of (run_of script.now))) }
{
    match run_script(alloc, script)? {
        Ran::Whole(world, text) => finished(alloc, &world, text),
        Ran::Stopped(_, text, bad) => stopped(alloc, text, bad),
    }
}

/// Does the lines of a script, up to the first bad one.
pub(crate) fn run_script(alloc: Global, script: &[u8]) -> Result<Ran, NoMemory>
    ensures { IfOk result (λ r. ComesTo (run_of script.now) r) }
{
    run_known(alloc, known_of(script))
}

/// As much of a script as matters.
fn known_of(script: &[u8]) -> &[u8]
    ensures { result.now ≡ take (script_limit + 1) script.now }
{
    if script.len() <= LONGEST_SCRIPT {
        script
    } else {
        &script[..LONGEST_SCRIPT + 1]
    }
}

/// Does the lines of the header, and then the others.
fn run_known(alloc: Global, known: &[u8]) -> Result<Ran, NoMemory>
    requires { length known.now ≤ script_limit + 1 }
    ensures { IfOk result (λ r. ComesTo (run_from (length known.now) 0 1 Before (lines_of known.now)) r) }
{
    let mut header: Option<Header> = None;
    let mut before = 0;
    let mut number = 1u32;
    let mut rest = known;
    while !rest.is_empty() {
        let (text, others) = first_line(rest);
        let behind = line_end(known.len(), before, text);
        if LONGEST_SCRIPT < behind {
            return unopened(alloc, header, number, BadKind::ScriptTooLong.number());
        }
        match head_line(alloc, header, text)? {
            Headed::Goes(next) => {
                header = next;
                before = behind;
                number += 1;
                rest = others;
            }
            Headed::Ends(header) => {
                let world = opened(alloc, header)?;
                return run_on(alloc, world, known.len(), before, number, rest);
            }
            Headed::Bad(header, kind) => return unopened(alloc, header, number, kind),
        }
    }
    closed(alloc, header, number)
}

/// The run of a script that has no event, and whose last line is the one before this number.
fn closed(alloc: Global, header: Option<Header>, number: u32) -> Result<Ran, NoMemory>
    requires { HasFew header }
    ensures { IfOk result (λ r. ComesTo (record { scene = scene_in (progress_by header); text = []; bad = bad_end number (progress_by header) }) r) }
{
    match header {
        None => unopened(alloc, None, number, BadKind::NotALine.number()),
        Some(header) => Ok(Ran::Whole(opened(alloc, header)?, Bytes::new(alloc))),
    }
}

/// The run of a script in which this line is bad, before any event and behind so much of a header.
fn unopened(alloc: Global, header: Option<Header>, number: u32, kind: u8) -> Result<Ran, NoMemory>
    ensures { IfOk result (λ r. ComesTo (run_to_bad_line (progress_by header) number kind) r) }
{
    let transcript = without_steps(alloc, header)?;
    Ok(Ran::Stopped(transcript, Bytes::new(alloc), BadLine { number, kind }))
}

/// Does the lines behind the header, the first of which has this number, up to the first bad one.
fn run_on(
    alloc: Global,
    opened: World<Hostile>,
    total: usize,
    place: usize,
    first: u32,
    lines: &[u8],
) -> Result<Ran, NoMemory>
    requires shows { ShowsItsScene opened }
    requires reached { IsReached (scene_of opened) first }
    requires place { place ≤ total }
    requires total { total ≤ script_limit + 1 }
    requires few { first + length lines.now ≤ script_limit + 2 }
    ensures { IfOk result (λ r. ComesTo (run_from total place first (Stands (scene_of opened)) (lines_of lines.now)) r) }
{
    let mut world = opened;
    let mut out = Bytes::new(alloc);
    let mut before = place;
    let mut number = first;
    let mut rest = lines;
    while !rest.is_empty() {
        let (text, others) = first_line(rest);
        let behind = line_end(total, before, text);
        match do_line(alloc, &mut world, number, behind, text, &mut out)? {
            Some(bad) => return Ok(Ran::Stopped(world.into_transcript(), out, bad)),
            None => {
                before = behind;
                number += 1;
                rest = others;
            }
        }
    }
    Ok(Ran::Whole(world, out))
}

/// Does the line of a number, which ends so far in the script; where it is bad, it answers how.
fn do_line(
    alloc: Global,
    world: &mut World<Hostile>,
    number: u32,
    behind: usize,
    text: &[u8],
    out: &mut Bytes,
) -> Result<Option<BadLine>, NoMemory>
    requires shows { ShowsItsScene world.old }
    requires reached { IsReached (scene_of world.old) number }
    requires few { number + 1 < 2 ^ 32 }
    ensures { IfOk result (λ bad. Follows number (trial_at behind (Stands (scene_of world.old)) text.now) (scene_of world.old) world.new out.old out.new bad) }
{
    if LONGEST_SCRIPT < behind {
        let kind = BadKind::ScriptTooLong.number();
        return Ok(Some(BadLine { number, kind }));
    }
    match try_text(alloc, world, text, out)? {
        Some(kind) => Ok(Some(BadLine { number, kind })),
        None => Ok(None),
    }
}

/// Does the line that a text spells, and answers the kind by which it is bad.
fn try_text(
    alloc: Global,
    world: &mut World<Hostile>,
    text: &[u8],
    out: &mut Bytes,
) -> Result<Option<u8>, NoMemory>
    requires shows { ShowsItsScene world.old }
    requires may { (l : Line) → line_of (Some world.old.transcript.mode) text.now ≡ Some l → MayDo world.old l }
    ensures { IfOk result (λ bad. Tries (trial_of_line (Stands (scene_of world.old)) (line_of (Some world.old.transcript.mode) text.now)) (scene_of world.old) world.new out.old out.new bad) }
{
    let mode = world.transcript().mode;
    match read_line(alloc, text, Some(mode)) {
        Ok(line) => try_line_on(alloc, world, &line, out),
        Err(LineFault::Grammar) => Ok(Some(BadKind::NotALine.number())),
        Err(LineFault::NoMemory) => Err(NoMemory),
    }
}

fn try_line_on(
    alloc: Global,
    world: &mut World<Hostile>,
    line: &Line,
    out: &mut Bytes,
) -> Result<Option<u8>, NoMemory>
    requires shows { ShowsItsScene world.old }
    requires may { MayDo world.old line.now }
    ensures { IfOk result (λ bad. Tries (trial_by (bad_kind (scene_of world.old) line.now) (done_line by_kind (scene_of world.old) line.now)) (scene_of world.old) world.new out.old out.new bad) }
{
    match world.apply(alloc, line) {
        Ok(text) => {
            out.append(text.as_slice())?;
            Ok(None)
        }
        Err(WorldFault::Bad(kind)) => Ok(Some(kind)),
        Err(WorldFault::NoMemory) => Err(NoMemory),
    }
}

/// How a run ends whose every line was done.
fn whole_end(forged: bool) -> End
    ensures { result ≡ end_by None forged }
{
    if forged { End::Forged } else { End::Whole }
}

/// What was printed, and then the views of all clients.
fn finished(alloc: Global, world: &World<Hostile>, out: Bytes) -> Result<Played, NoMemory>
    requires { ShowsItsScene world.now }
    ensures { IfOk result (λ p. (p.text ≡ out ++ end_text (transcript_group world.now.transcript) (transcript_history world.now.transcript) None) × (p.end ≡ end_by None (is_forged (transcript_group world.now.transcript) (transcript_history world.now.transcript)))) }
{
    let mut text = out;
    let forged = world.put_views(&mut text, alloc)?;
    Ok(Played {
        text,
        end: whole_end(forged),
    })
}

/// What was printed, and then the bad line.
fn stopped(alloc: Global, out: Bytes, bad: BadLine) -> Result<Played, NoMemory>
    ensures { IfOk result (λ p. (p.text ≡ out ++ bad_line (record { number = bad.number; kind = bad.kind })) × (p.end ≡ End.Bad)) }
{
    let mut text = out;
    put_bad_line(&mut text, alloc, bad.number, bad.kind)?;
    Ok(Played {
        text,
        end: End::Bad,
    })
}
