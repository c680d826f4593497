//! Looks: the board, a product, a draft, and the text that a draft would give.
ghost use Rattle.std.specs.Prelude.{◌≡◌, ◌≤◌, IfOk, IfSome, Some, Err, false, option_map};
ghost use Rattle.hazard_types.specs.declared.or.Or.TheVariants.{No};
ghost use Rattle.office_types.specs.declared.refusal.Refusal.{Refusal as Refused};
ghost use Rattle.office_types.specs.declared.request.Query.TheVariants as Looked;
ghost use Rattle.office_core.specs.Look.{LacksDraft, LacksProduct, RefusesLook, Shows, ShowsDraft, ShowsProduct};
ghost use Rattle.office_core.specs.Making.{drafted_by};
ghost use Rattle.office_core.specs.Rules.{is_out, minute_of};
ghost use Rattle.office_core.specs.Sound.{IsSoundMaking};
ghost use Rattle.office_core.specs.State.{draft_at};

use crate::number_rules::{is_out, minute_at};
use crate::office::Office;
use crate::soundness_laws::{entries_come_in_order, open_drafts_are_sound};
use board_text::write_board;
use hazard_types::{List, Minute, Or, Text};
use office_types::{Draft, Query, Refusal, Sent};
use request_json::draft_text;
use std::alloc::Global;

/// Returns a copy of the text of the product `found`, or errs with `NoProduct` if there is none.
fn product_text(alloc: Global, found: Option<&Sent>) -> Result<Text, Or<Refusal>>
    ensures shows { IfOk result
        (λ text. ShowsProduct (option_map (λ sent. sent.now) found.entry) text) }
    ensures refused { (x : Refused) →
        result ≡ Err (No x) → LacksProduct (option_map (λ sent. sent.now) found.entry) x }
{
    match found {
        Some(sent) => Ok(List::from_slice(alloc, sent.text.as_slice())?),
        None => Err(Or::No(Refusal::NoProduct)),
    }
}

/// Returns the draft `found` as JSON, or errs with `NoDraft` if there is none.
fn draft_as_json(alloc: Global, found: Option<&Draft>) -> Result<Text, Or<Refusal>>
    ensures shows { IfOk result (λ text. ShowsDraft (option_map (λ d. d.now) found.entry) text) }
    ensures refused { (x : Refused) →
        result ≡ Err (No x) → LacksDraft (option_map (λ d. d.now) found.entry) x }
{
    match found {
        Some(draft) => Ok(draft_text(alloc, draft)?),
        None => Err(Or::No(Refusal::NoDraft)),
    }
}

impl Office {
    /// Returns the minute at which a product would be sent if the clock read `reading`: the later
    /// of `reading` and the minute of the last entry. `reading` is in minutes since
    /// 2000-01-01T00:00Z UTC, from 0 to 52,000,000.
    fn minute_to_come(&self, reading: i64) -> Minute
        requires { is_out reading ≡ false }
        ensures value { result ≡ minute_of self.now.state reading }
        ensures later { self.now.state.last ≤ result }
        ensures range { result ≤ 52000000 }
    {
        entries_come_in_order();
        let _ = &self.settings;
        self.minute_of(reading)
    }

    /// Returns the open draft whose id is `id`, or `None` if there is none. A product can be
    /// planned of each open draft.
    fn sound_draft_at(&self, id: u32) -> Option<&Draft>
        ensures value { option_map (λ d. d.now) result ≡ draft_at self.now.state id }
        ensures sound { IfSome result
            (λ d. IsSoundMaking self.now.state (drafted_by (Some d.now))) }
    {
        open_drafts_are_sound();
        let _ = &self.settings;
        self.draft_at(id)
    }

    /// Returns the text of the board at `reading`: the rows that are live then (no line has ended
    /// them, and their end is later), one a line, by zone, then event. It errs with `ClockOut` if
    /// `reading`, in minutes since 2000-01-01T00:00Z UTC, is not from 0 to 52,000,000.
    fn board_text(&self, alloc: Global, reading: i64) -> Result<Text, Or<Refusal>>
        ensures shows { IfOk result (λ text. Shows self.now.state Looked.Board reading text) }
        ensures refused { (x : Refused) →
            result ≡ Err (No x) → RefusesLook self.now.state Looked.Board reading x }
    {
        if is_out(reading) {
            return Err(Or::No(Refusal::ClockOut { minute: reading }));
        }
        let shown = self.board.shown(alloc, minute_at(reading))?;
        let mut text = List::new(alloc);
        write_board(alloc, &mut text, shown.as_slice())?;
        Ok(text)
    }

    /// Returns the text of the product that a send of draft `id` would make at the later of
    /// `reading` and the minute of the last entry. It errs with `ClockOut` if `reading`, in minutes
    /// since 2000-01-01T00:00Z UTC, is not from 0 to 52,000,000, with `NoDraft` if no draft with
    /// this id is open, or with the refusal for the first rule that the product would break.
    fn preview(&self, alloc: Global, id: u32, reading: i64) -> Result<Text, Or<Refusal>>
        ensures shows { IfOk result
            (λ text. Shows self.now.state (Looked.Preview id) reading text) }
        ensures refused { (x : Refused) →
            result ≡ Err (No x) → RefusesLook self.now.state (Looked.Preview id) reading x }
    {
        if is_out(reading) {
            return Err(Or::No(Refusal::ClockOut { minute: reading }));
        }
        let t = self.minute_to_come(reading);
        match self.sound_draft_at(id) {
            Some(draft) => {
                let made = self.make_drafted(alloc, draft, t)?;
                Ok(made.sent.text)
            }
            None => Err(Or::No(Refusal::NoDraft)),
        }
    }

    /// Returns the text that a query asks for: the rows live at `reading`, one a line; the text of
    /// a product as it was sent, of a number or the one after a number; a draft as JSON; or the
    /// text that a send of a draft would give at the later of `reading` and the minute of the last
    /// entry. `reading` is in minutes since 2000-01-01T00:00Z UTC.
    ///
    /// # Errors
    ///
    /// - `ClockOut` for the board and a preview, if `reading` is outside 0 to 52,000,000.
    /// - `NoProduct`, `NoDraft`.
    /// - For a preview the first rule that the lines or the text would break.
    /// - `OutOfMemory`.
    pub fn look(&self, alloc: Global, q: &Query, reading: i64) -> Result<Text, Or<Refusal>>
        ensures shows { IfOk result (λ text. Shows self.now.state q.now reading text) }
        ensures refused { (x : Refused) →
            result ≡ Err (No x) → RefusesLook self.now.state q.now reading x }
    {
        match q {
            Query::Board => self.board_text(alloc, reading),
            Query::Product(number) => product_text(alloc, self.product_at(*number)),
            Query::After(number) => product_text(alloc, self.product_after(*number)),
            Query::Draft(id) => draft_as_json(alloc, self.draft_at(*id)),
            Query::Preview(id) => self.preview(alloc, *id, reading),
        }
    }
}
