//! The change of the open drafts by a request.
ghost use Rattle.std.specs.Prelude.{◌≡◌, ◌<◌, IfOk, None, [], position};
ghost use Rattle.office_core.specs.Prepared.{HasPlace, changed};
ghost use Rattle.office_core.specs.Rules.{drafts_full};
ghost use Rattle.office_core.specs.State.{is_draft};
ghost use Rattle.office_core.specs.declared.prepared.DraftChange.TheVariants.{Open};
ghost use Rattle.office_core.specs.Step.{drafts_after, taken_by, with_draft, with_intent, without_draft, without_intent};

use crate::copies::{clone_event, clone_put, clone_routine, copied_intents};
use crate::office::Office;
use crate::prepared::DraftChange;
use hazard_types::{Category, List, Minute, Oom};
use office_types::{Desk, Draft, Intent, Request};
use std::alloc::Global;

/// Returns the index in `drafts` of the draft whose id is `id`, or `None` if there is none.
pub(crate) fn place_of(drafts: &[Draft], id: u32) -> Option<usize>
    ensures { result ≡ position (is_draft id) drafts.now }
{
    drafts.iter().position(|draft| draft.id == id)
}

/// Returns a draft with the id, owner and category of `draft`, with `intents`, and with minute `t`
/// as that of the last accepted request on it.
fn touched(draft: &Draft, t: Minute, intents: List<Intent>) -> Draft
    ensures { result ≡ record { id = draft.now.id; owner = draft.now.owner; category = draft.now.category; touched = t; intents = intents } }
{
    Draft {
        id: draft.id,
        owner: draft.owner,
        category: draft.category,
        touched: t,
        intents,
    }
}

/// Returns the draft with one more intent, after the others, and minute `t` as that of the last
/// accepted request on it.
fn with_intent(alloc: Global, draft: &Draft, t: Minute, intent: Intent) -> Result<Draft, Oom>
    ensures { IfOk result (λ new. new ≡ with_intent t intent draft.now) }
{
    let mut intents = copied_intents(alloc, draft.intents.as_slice())?;
    intents.push(intent)?;
    Ok(touched(draft, t, intents))
}

/// Returns the draft without the intent at `place`, counted from 0, and with minute `t` as that of
/// the last accepted request on it. The later intents move down by one; if there is none at
/// `place`, all stay.
fn without_intent(alloc: Global, draft: &Draft, t: Minute, place: usize) -> Result<Draft, Oom>
    ensures { IfOk result (λ new. new ≡ without_intent t place draft.now) }
{
    let mut intents = copied_intents(alloc, draft.intents.as_slice())?.into_vec();
    if place < intents.len() {
        intents.remove(place);
    }
    Ok(touched(draft, t, List::from_vec(intents)))
}

/// Returns the draft with `desk` as its owner, and minute `t` as that of the last accepted request
/// on it.
fn taken_by(alloc: Global, draft: &Draft, t: Minute, desk: &Desk) -> Result<Draft, Oom>
    ensures { IfOk result (λ new. new ≡ taken_by t desk.now draft.now) }
{
    let intents = copied_intents(alloc, draft.intents.as_slice())?;
    Ok(Draft {
        id: draft.id,
        owner: *desk,
        category: draft.category,
        touched: t,
        intents,
    })
}

/// What a request changes in an open draft: one more intent, behind the others; one less, at a
/// place counted from 0; or its owner.
#[derive(Drop)]
enum Edit {
    More(Intent),
    Less(usize),
    Owner(Desk),
}

ghost use Rattle.office_core.specs.Edits.{edited};

/// Returns the draft after the edit: with one more intent behind the others, without the intent at
/// a place, counted from 0, or with another owner. Minute `t` becomes that of the last accepted
/// request on it.
fn edited(alloc: Global, draft: &Draft, t: Minute, edit: Edit) -> Result<Draft, Oom>
    ensures { IfOk result (λ new. new ≡ edited t edit draft.now) }
{
    match edit {
        Edit::More(intent) => with_intent(alloc, draft, t, intent),
        Edit::Less(place) => without_intent(alloc, draft, t, place),
        Edit::Owner(desk) => taken_by(alloc, draft, t, &desk),
    }
}

/// Returns the change that replaces the draft whose id is `id` by its copy after the edit, with
/// minute `t` as that of the last accepted request on it. It is `Keep` if no draft of `drafts` has
/// this id.
fn edit_draft(
    alloc: Global,
    drafts: &[Draft],
    id: u32,
    t: Minute,
    edit: Edit,
) -> Result<DraftChange, Oom>
    ensures drafts { IfOk result
        (λ change. changed change drafts.now ≡ with_draft (edited t edit) id drafts.now) }
    ensures place { IfOk result (λ change. HasPlace change drafts.now) }
{
    match place_of(drafts, id) {
        Some(place) => {
            let draft = edited(alloc, &drafts[place], t, edit)?;
            Ok(DraftChange::Replace(place, draft))
        }
        None => Ok(DraftChange::Keep),
    }
}

/// Returns the change that removes draft `id`, or `Keep` if no open draft has this id.
pub(crate) fn take_away(drafts: &[Draft], id: u32) -> DraftChange
    ensures drafts { changed result drafts.now ≡ without_draft id drafts.now }
    ensures place { HasPlace result drafts.now }
{
    match place_of(drafts, id) {
        Some(place) => DraftChange::Remove(place),
        None => DraftChange::Keep,
    }
}

/// Returns the change that opens a draft without intents, with this id, owner and category. `t` is
/// the minute at which it is opened, and so of the last accepted request on it.
fn opened_draft(alloc: Global, id: u32, owner: &Desk, category: Category, t: Minute) -> DraftChange
    ensures { result ≡ Open
        (record { id = id; owner = owner.now; category = category; touched = t; intents = [] }) }
{
    DraftChange::Open(Draft {
        id,
        owner: *owner,
        category,
        touched: t,
        intents: List::new(alloc),
    })
}

impl Office {
    /// Returns the change of the open drafts by a request of `desk` that breaks no rule and is
    /// accepted at minute `t`. It is `Open` for a begin, with an id one above the number of drafts
    /// opened so far, `Replace` for an intent that is added or removed and for a take, and `Remove`
    /// for a discard and a send. It is `Keep` for an issue, for a correction, and if no open draft
    /// has the id.
    #[tactic(auto, unfolding(crate::specs::Step::drafts_after))]
    pub(crate) fn change_of(
        &self,
        alloc: Global,
        desk: &Desk,
        r: &Request,
        t: Minute,
    ) -> Result<DraftChange, Oom>
        requires room { drafts_full self.now.state r.now ≡ None }
        requires ids { self.now.state.begun < 4294967295 }
        ensures drafts { IfOk result (λ change.
            changed change self.now.state.drafts ≡ drafts_after self.now.state desk.now r.now t) }
        ensures place { IfOk result (λ change. HasPlace change self.now.state.drafts) }
    {
        let drafts = self.drafts.as_slice();
        let (id, edit) = match r {
            Request::Begin(category) => {
                return Ok(opened_draft(alloc, self.begun + 1, desk, *category, t));
            }
            Request::Put(id, part) => (*id, Edit::More(Intent::Put(clone_put(part)?))),
            Request::Finish(id, part) => (*id, Edit::More(Intent::Finish(clone_event(part)?))),
            Request::Restate(id, part) => (*id, Edit::More(Intent::Restate(clone_event(part)?))),
            Request::Routine(id, part) => (*id, Edit::More(Intent::Routine(clone_routine(part)?))),
            Request::Drop(id, place) => (*id, Edit::Less(*place as usize)),
            Request::Take(id) => (*id, Edit::Owner(*desk)),
            Request::Discard(id) | Request::Send(id) => return Ok(take_away(drafts, *id)),
            Request::Issue(_) | Request::Correct(..) => return Ok(DraftChange::Keep),
        };
        edit_draft(alloc, drafts, id, t, edit)
    }
}
