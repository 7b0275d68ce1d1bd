//! What is printed of a transcript at its end: the views, how far they agree, and what is said of tags.

ghost use Rattle.std.specs.Prelude.{◌≡◌, ◌<◌, ◌≤◌, ◌+◌, ◌-◌, ◌^◌, ◌↔◌, true, [], ◌∷◌, ◌++◌, drop, length, reverse, IfOk, OnOk, OnErr, slice_get, slice_index_or, Some, None};
ghost use Rattle.std.specs.List.{flat_map};
ghost use Rattle.std.specs.Fmt.{decimal};
ghost use Rattle.vic_rules.specs.History.{IsLawful};
ghost use Rattle.vic_rules.specs.Trust.{IsForged};
ghost use Rattle.vic_script.specs.Print.{shown_line, agreement, tags_line, is_forged, all_views as every_view, all_agreements as every_agreement, end_text};
ghost use Rattle.vic_view.specs.Transcripts.{transcript_group, transcript_history};
ghost use Rattle.vic_view.specs.Replay.{AreReplayed};
ghost use Rattle.vic_view.specs.Printed.{views_up_to, view_text, view_texts, agree_text, agree_with, agree_texts};

use crate::forgery::forged_along;
use crate::replay::ClientPath;
use crate::transcript::Transcript;
use crate::view::{View, agreements};
use crate::views::{all_paths, common_lengths, view_among};
use std::alloc::Global;
use std::marker::Model;
use vic_dict::{Bytes, NoMemory};
use vic_rules::Shown;
use vic_text::{put_number, put_op, put_outcome};

/// What is printed at the end of a run, and whether a tag was forged.
#[derive(Debug, Drop)]
pub struct Printed {
    /// The lines to print.
    pub text: Bytes,
    /// Whether some tag was: it decides the last line and the status.
    pub forged: bool,
}

/// The views of clients 1, 2 and so on.
#[derive(Debug, Drop)]
pub(crate) struct Views {
    items: Vec<View>,
}

impl Model for Views {
    ghost use Rattle.std.specs.Prelude.{List};
    ghost use Rattle.vic_rules.specs.declared.trace.Shown.{Shown};

    ghost Value = { List (List Shown) };

    ghost view = { λ a. a.items.items };
}

impl Views {
    fn new(alloc: Global) -> Views
        ensures { result ≡ [] }
    {
        Views {
            items: Vec::new(alloc),
        }
    }

    fn as_slice(&self) -> &[View]
        ensures { result.now ≡ self.now }
    {
        self.items.as_slice()
    }

    fn push(&mut self, view: View) -> Result<(), NoMemory>
        ensures ok { OnOk result (self.new ≡ self.old ++ view ∷ []) }
        ensures err { OnErr result (self.new ≡ self.old) }
    {
        self.items.push(view)?;
        Ok(())
    }
}

/// The views of all clients, whose paths are known.
fn all_views(alloc: Global, t: &Transcript, all: &[ClientPath]) -> Result<Views, NoMemory>
    requires lawful { IsLawful (transcript_group t.now) (transcript_history t.now) }
    requires paths { AreReplayed t.now.count (transcript_history t.now) all.now }
    ensures { IfOk result (λ views. views ≡ views_up_to (transcript_group t.now) (transcript_history t.now) t.now.count) }
{
    let lengths = common_lengths(alloc, all)?;
    let rows = lengths.as_slice();
    let mut views = Views::new(alloc);
    for (k, mine) in all.iter().enumerate() {
        views.push(view_among(alloc, mine, rows[k].as_slice(), all)?)?;
    }
    Ok(views)
}

fn put_shown(out: &mut Bytes, alloc: Global, shown: &Shown) -> Result<(), NoMemory>
    ensures ok { OnOk result (out.new ≡ out.old ++ shown_line shown.now) }
{
    put_number(out, u64::from(shown.entry.client))?;
    out.append(b".")?;
    put_number(out, u64::from(shown.entry.seq))?;
    out.append(b" ")?;
    put_op(out, alloc, &shown.entry.op)?;
    out.append(b" = ")?;
    put_outcome(out, alloc, &shown.outcome)?;
    out.append(b"\n")
}

fn put_shown_list(out: &mut Bytes, alloc: Global, view: &[Shown]) -> Result<(), NoMemory>
    ensures ok { OnOk result (out.new ≡ out.old ++ flat_map shown_line view.now) }
{
    for shown in view {
        put_shown(out, alloc, shown)?;
    }
    Ok(())
}

/// The lines of the view of a client.
fn put_view(out: &mut Bytes, alloc: Global, client: usize, view: &[Shown]) -> Result<(), NoMemory>
    ensures ok { OnOk result (out.new ≡ out.old ++ view_text client view.now) }
{
    out.append(b"view ")?;
    put_number(out, client as u64)?;
    out.append(b"\n")?;
    put_shown_list(out, alloc, view)
}

/// The lines of all views.
fn put_views(out: &mut Bytes, alloc: Global, views: &[View]) -> Result<(), NoMemory>
    ensures ok { OnOk result (out.new ≡ out.old ++ view_texts 1 views.now) }
{
    for (k, view) in views.iter().enumerate() {
        put_view(out, alloc, k + 1, view.as_slice())?;
    }
    Ok(())
}

/// The line that tells how far two clients' views agree.
fn put_agreement(
    out: &mut Bytes,
    alloc: Global,
    one: usize,
    other: usize,
    calls: usize,
) -> Result<(), NoMemory>
    ensures ok { OnOk result (out.new ≡ out.old ++ agree_text one other calls) }
{
    out.append(b"agree ")?;
    put_number(out, one as u64)?;
    out.append(b" ")?;
    put_number(out, other as u64)?;
    out.append(b" ")?;
    put_number(out, calls as u64)?;
    out.append(b"\n")
}

/// How far a client's view agrees with those of the clients behind it, where it is known how far with each.
fn put_agreements_with(
    out: &mut Bytes,
    alloc: Global,
    client: usize,
    calls: &[usize],
) -> Result<(), NoMemory>
    requires member { client ≤ length calls.now }
    requires few { length calls.now < 2 ^ 32 }
    ensures ok { OnOk result (out.new ≡ out.old ++ agree_with client (client + 1) (drop client calls.now)) }
{
    for (k, common) in calls[client..].iter().enumerate() {
        put_agreement(out, alloc, client, client + 1 + k, *common)?;
    }
    Ok(())
}

/// How far each two views agree.
fn put_agreements(out: &mut Bytes, alloc: Global, views: &[View]) -> Result<(), NoMemory>
    requires { length views.now < 2 ^ 32 }
    ensures ok { OnOk result (out.new ≡ out.old ++ agree_texts 1 views.now) }
{
    let agreed = agreements(alloc, views)?;
    let rows = agreed.as_slice();
    for (k, row) in rows.iter().enumerate() {
        put_agreements_with(out, alloc, k + 1, row.as_slice())?;
    }
    Ok(())
}

fn put_tags(out: &mut Bytes, forged: bool) -> Result<(), NoMemory>
    ensures ok { OnOk result (out.new ≡ out.old ++ tags_line forged) }
{
    if forged {
        out.append(b"tags not made\n")
    } else {
        out.append(b"tags made\n")
    }
}

/// Appends the lines of all views, how far each two agree, and what is said of tags, where the paths of all clients are known.
fn put_along(
    out: &mut Bytes,
    alloc: Global,
    t: &Transcript,
    all: &[ClientPath],
    forged: bool,
) -> Result<(), NoMemory>
    requires lawful { IsLawful (transcript_group t.now) (transcript_history t.now) }
    requires paths { AreReplayed t.now.count (transcript_history t.now) all.now }
    ensures { OnOk result (out.new ≡ out.old
        ++ (every_view (transcript_group t.now) (transcript_history t.now)
        ++ every_agreement (transcript_group t.now) (transcript_history t.now)
        ++ tags_line forged)) }
{
    let views = all_views(alloc, t, all)?;
    put_views(out, alloc, views.as_slice())?;
    put_agreements(out, alloc, views.as_slice())?;
    put_tags(out, forged)?;
    Ok(())
}

/// Appends what is printed at the end of a run: the lines of all views, how far each two agree, and whether each tag that was taken
/// was made, of which the answer is the contrary. Where memory runs out, some of it may stand there. It costs the transcript; for
/// each client a look at each step, the hashes along its path, and what the calls of its view hold; for each two clients a few
/// numbers; and for each text that was tagged or taken the logarithm of the number of those tagged.
pub fn put_end(out: &mut Bytes, alloc: Global, t: &Transcript) -> Result<bool, NoMemory>
    requires { IsLawful (transcript_group t.now) (transcript_history t.now) }
    ensures text { OnOk result (out.new ≡ out.old
        ++ end_text (transcript_group t.now) (transcript_history t.now) None) }
    ensures forged { IfOk result (λ forged.
        forged ≡ is_forged (transcript_group t.now) (transcript_history t.now)) }
    ensures means { IfOk result (λ forged.
        (forged ≡ true) ↔ IsForged (transcript_group t.now) (transcript_history t.now)) }
{
    let paths = all_paths(alloc, t)?;
    let forged = forged_along(alloc, t, paths.as_slice())?;
    put_along(out, alloc, t, paths.as_slice(), forged)?;
    Ok(forged)
}

/// The same, printed alone, with the answer of `put_end` beside it.
pub fn print_end(alloc: Global, t: &Transcript) -> Result<Printed, NoMemory>
    requires { IsLawful (transcript_group t.now) (transcript_history t.now) }
    ensures text { IfOk result (λ p.
        p.text ≡ end_text (transcript_group t.now) (transcript_history t.now) None) }
    ensures forged { IfOk result (λ p.
        p.forged ≡ is_forged (transcript_group t.now) (transcript_history t.now)) }
    ensures means { IfOk result (λ p.
        (p.forged ≡ true) ↔ IsForged (transcript_group t.now) (transcript_history t.now)) }
{
    let mut text = Bytes::new(alloc);
    let forged = put_end(&mut text, alloc, t)?;
    Ok(Printed { text, forged })
}

/// The text of `print_end` alone.
pub fn print_views(alloc: Global, t: &Transcript) -> Result<Bytes, NoMemory>
    requires { IsLawful (transcript_group t.now) (transcript_history t.now) }
    ensures { IfOk result (λ b. b ≡ end_text (transcript_group t.now) (transcript_history t.now) None) }
{
    let printed = print_end(alloc, t)?;
    Ok(printed.text)
}
