//! Builds an office from the bodies of a journal.
ghost use Rattle.std.specs.Prelude.{◌≡◌, ◌≤◌, ◌<◌, ◌∷◌, [], Some, Ok, IfOk, length};
ghost use Rattle.std.specs.Bool.{Decides};
ghost use Rattle.office_types.specs.declared.request.Edition.TheVariants.{One};
ghost use Rattle.request_json.specs.Form.{asked_of};
ghost use Rattle.request_json.specs.Formed.{HasForm};
ghost use Rattle.office_journal.specs.Bodies.{entry_body, mark};
ghost use Rattle.office_journal.specs.Parts.{minute_in, request_in};
ghost use Rattle.office_journal.specs.Replaying.{Begins, HasTaken, Judges, Prepares, Replays, Takes, TakesEntry, most};
ghost use Rattle.office_journal.specs.Submitting.{entered};

use crate::entry_bodies::entry_body;
use crate::parts::{asked_in, minute_in, record_length};
use desk_settings::read_settings;
use hazard_types::{Class, Minute, Oom, Or, Text};
use journal_core::LIMIT;
use office_core::{Office, Prepared, Ready, a_request_has_one_answer, offices_begin_in_agreement};
use office_types::Edition;
use request_json::{Asked, canonical_texts_are_lines};
use std::alloc::Global;

/// An office that was built from bodies, the count of their entries, and the length of their
/// records in bytes.
#[derive(Drop)]
pub(crate) struct Replayed {
    pub(crate) office: Office,
    pub(crate) entries: u64,
    pub(crate) size: u64,
}

/// Returns the office that the bodies `all` of a journal make, in their order, with the count of
/// entries and the length of their records. The first body is the text of the settings, and each
/// other one an entry or the mark of edition Two; there must be at least one.
///
/// # Errors
///
/// `Or::No` with the place, in bytes from 0, of the first body that fails, and otherwise out of
/// memory.
///
/// Source: docs/JOURNAL.md, "What is a journal, and what is not".
pub(crate) fn replay(alloc: Global, all: &[Text]) -> Result<Replayed, Or<u64>>
    requires some { 0 < length all.now }
    ensures { Replays all.now result }
{
    let Some((file, others)) = all.split_first() else {
        unreachable!()
    };
    let first = Replayed::first(alloc, file.as_slice())?;
    match first {
        Some(found) => replay_others(alloc, found, file.as_slice(), others),
        None => Err(Or::No(0)),
    }
}

/// Returns the office after the bodies `others`, which come in this order after `file`, the text of
/// the settings. `found` is the office that `file` alone makes. Errs with `Or::No` and the place,
/// in bytes from 0, of the first body that fails, or out of memory.
fn replay_others(
    alloc: Global,
    mut found: Replayed,
    file: &[u8],
    others: &[Text],
) -> Result<Replayed, Or<u64>>
    requires { HasTaken (file.now ∷ []) found }
    ensures { Replays (file.now ∷ others.now) result }
{
    for body in others {
        let taken = found.take(alloc, body.as_slice())?;
        if !taken {
            return Err(Or::No(found.size));
        }
    }
    Ok(found)
}

/// Returns what an office prepares for a request at this minute. `None` if the office refuses the
/// request, or if the request is the last one of its desk again. The office's state stays as it is.
fn prepared(
    alloc: Global,
    office: &mut Office,
    asked: &Asked,
    minute: Minute,
) -> Result<Option<Prepared>, Oom>
    requires form { HasForm asked.now }
    requires ids { office.old.state.begun < 4294967295 }
    ensures state { office.new.state ≡ office.old.state }
    ensures prepares { IfOk result (Prepares office.new office.old.state asked.now minute) }
{
    a_request_has_one_answer();
    let reading = i64::from(minute.get());
    match office.prepare(alloc, asked.desk, asked.seq, &asked.request, reading) {
        Ok(ready) => match ready {
            Ready::New(p) => Ok(Some(p)),
            Ready::Again => Ok(None),
        },
        Err(Or::No(_)) => Ok(None),
        Err(Or::OutOfMemory) => Err(Oom),
    }
}

/// Whether `body` is, byte for byte, the body of the entry of the prepared request `p`. `asked` is
/// the request with its desk and number, and `edition` the edition, that `p` was prepared with.
fn is_body_of(
    alloc: Global,
    body: &[u8],
    asked: &Asked,
    edition: Edition,
    p: &Prepared,
) -> Result<bool, Oom>
    requires desk { p.now.entry.desk ≡ asked.now.desk }
    requires seq { p.now.entry.seq ≡ asked.now.seq }
    requires request { p.now.entry.request ≡ asked.now.request }
    requires edition { p.now.entry.edition ≡ edition }
    ensures { IfOk result (λ same. Decides same (entry_body (entered p.now) ≡ body.now)) }
{
    let written = entry_body(alloc, &asked.desk, asked.seq, &asked.request, edition, p)?;
    Ok(written.as_slice() == body)
}

/// Returns what an office prepares for the request in the body of an entry, at the minute in the
/// body. `None` if the body has no minute or no request, if the office refuses the request or has
/// it as the last one of its desk, or if it would write another body for its entry. The office's
/// state stays as it is.
fn judge_body(alloc: Global, office: &mut Office, body: &[u8]) -> Result<Option<Prepared>, Oom>
    requires ids { office.old.state.begun < 4294967295 }
    ensures state { office.new.state ≡ office.old.state }
    ensures judges { IfOk result (Judges office.new office.old.state body.now) }
{
    canonical_texts_are_lines();
    let Some(minute) = minute_in(body) else {
        return Ok(None);
    };
    let read = asked_in(alloc, body)?;
    match read {
        Some(asked) => judge_as(alloc, office, body, &asked, minute),
        None => Ok(None),
    }
}

/// Returns what an office prepares for `asked`, the request in `body`, at `minute`, the minute in
/// `body`. `None` if the office refuses it or would write another body or minute for its entry. The
/// office's state stays as it is.
fn judge_as(
    alloc: Global,
    office: &mut Office,
    body: &[u8],
    asked: &Asked,
    minute: Minute,
) -> Result<Option<Prepared>, Oom>
    requires form { HasForm asked.now }
    requires ids { office.old.state.begun < 4294967295 }
    requires minute { minute_in body.now ≡ Some minute }
    requires asked { asked_of (request_in body.now) ≡ Ok asked.now }
    ensures state { office.new.state ≡ office.old.state }
    ensures judges { IfOk result (Judges office.new office.old.state body.now) }
{
    a_request_has_one_answer();
    canonical_texts_are_lines();
    let ready = prepared(alloc, office, asked, minute)?;
    match ready {
        Some(p) => {
            let edition = office.edition();
            let same = is_body_of(alloc, body, asked, edition, &p)?;
            if same && p.minute() == minute {
                Ok(Some(p))
            } else {
                Ok(None)
            }
        }
        None => Ok(None),
    }
}

impl Replayed {
    /// Returns the office of `file`, the text of the settings, in edition One and before any
    /// request, or `None` if the text is no settings.
    fn first(alloc: Global, file: &[u8]) -> Result<Option<Self>, Oom>
        ensures { IfOk result (Begins file.now) }
    {
        let settings = match read_settings(alloc, file) {
            Ok(settings) => settings,
            Err(Or::No(_)) => return Ok(None),
            Err(Or::OutOfMemory) => return Err(Oom),
        };
        offices_begin_in_agreement();
        let office = Office::new(alloc, settings, Class::O, Edition::One)?;
        Ok(Some(Replayed {
            office,
            entries: 0,
            size: record_length(file),
        }))
    }

    /// Whether `body` is the mark of edition Two and may come next, which is so while the office is
    /// in edition One.
    fn goes_over(&self, body: &[u8]) -> bool
        ensures { Decides result ((body.now ≡ mark) × (self.now.office.state.edition ≡ One)) }
    {
        body == b"edition 2".as_slice() && self.office.edition() == Edition::One
    }

    /// Applies the next body to the office, and returns true: the mark of edition Two while the
    /// office is in edition One, or, byte for byte, the body that the office would write for a new
    /// request that it accepts, unless that makes the file longer than 268,435,456 bytes. Returns
    /// false for any other body; the office's state and the counts are then as before.
    fn take(&mut self, alloc: Global, body: &[u8]) -> Result<bool, Oom>
        requires begun { self.old.office.state.begun ≤ self.old.entries }
        requires recorded { self.old.entries ≤ self.old.size }
        requires within { self.old.size ≤ most self.old.office.state.edition }
        ensures { IfOk result (Takes self.old self.new body.now) }
    {
        a_request_has_one_answer();
        canonical_texts_are_lines();
        if self.goes_over(body) {
            self.office.set_edition(Edition::Two);
            self.size += record_length(body);
            return Ok(true);
        }
        self.take_entry(alloc, body)
    }

    /// Commits the request of an entry's body to the office, and returns true. Returns false if the
    /// body is not, byte for byte, the one that the office would write now for a new request that
    /// it accepts, or if it makes the file longer than 268,435,456 bytes; the office's state and
    /// the counts are then as before.
    fn take_entry(&mut self, alloc: Global, body: &[u8]) -> Result<bool, Oom>
        requires begun { self.old.office.state.begun ≤ self.old.entries }
        requires recorded { self.old.entries ≤ self.old.size }
        requires within { self.old.size ≤ most self.old.office.state.edition }
        ensures { IfOk result (TakesEntry self.old self.new body.now) }
    {
        if self.size + 1 + record_length(body) > LIMIT {
            return Ok(false);
        }
        let read = judge_body(alloc, &mut self.office, body)?;
        match read {
            Some(p) => {
                self.office.commit(p);
                self.entries += 1;
                self.size += record_length(body);
                Ok(true)
            }
            None => Ok(false),
        }
    }
}
