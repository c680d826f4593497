//! The rules on drafts (docs/REQUESTS.md, "Drafts and the parts of a request").
ghost use Rattle.std.specs.Prelude.{◌≡◌, ◌≤◌, ◌+◌, ◌&&◌, if◌then◌else◌, IfSome, None, Some, find, is_some, length, nat_le, nat_lt, option_map};
ghost use Rattle.office_types.specs.declared.refusal.Refusal.TheVariants as Refused;
ghost use Rattle.office_core.specs.Requests.{draft_of, intent_of, takes};
ghost use Rattle.office_core.specs.Rules.{no_draft, found_draft, is_of_other_desk, not_owner, still_active, drafts_full, intents_full, no_intent, broken_draft};
ghost use Rattle.office_core.specs.State.{draft_at, is_draft};

use crate::office::{MOST_DRAFTS, Office};
use action_planner::MOST_INTENTS;
use hazard_types::Minute;
use office_types::{Desk, Draft, Refusal, Request};

/// The minutes after its last touch for which a draft is its owner's alone.
const ACTIVE: u32 = 10;

/// Returns the id of the open draft that a request names, or `None` for a request that names none:
/// an issue, the opening of a draft, and a correction.
pub(crate) fn draft_of(r: &Request) -> Option<u32>
    ensures { result ≡ draft_of r.now }
{
    match r {
        Request::Issue(_) | Request::Begin(_) | Request::Correct(_, _) => None,
        Request::Put(id, _) => Some(*id),
        Request::Finish(id, _) => Some(*id),
        Request::Restate(id, _) => Some(*id),
        Request::Routine(id, _) => Some(*id),
        Request::Drop(id, _) => Some(*id),
        Request::Take(id) => Some(*id),
        Request::Discard(id) => Some(*id),
        Request::Send(id) => Some(*id),
    }
}

/// Whether the request adds an intent to a draft, or is an issue, which has an intent of its own.
fn puts(r: &Request) -> bool
    ensures { result ≡ is_some (intent_of r.now) }
{
    match r {
        Request::Issue(_) => true,
        Request::Put(_, _) => true,
        Request::Finish(_, _) => true,
        Request::Restate(_, _) => true,
        Request::Routine(_, _) => true,
        _ => false,
    }
}

/// Whether the request is a take, which makes the desk the owner of a draft.
fn takes(r: &Request) -> bool
    ensures { result ≡ takes r.now }
{
    match r {
        Request::Take(_) => true,
        _ => false,
    }
}

/// Returns the draft of `drafts` whose id is `id`, or `None` if there is none.
fn draft_at(drafts: &[Draft], id: u32) -> Option<&Draft>
    ensures { option_map (λ d. d.now) result ≡ find (is_draft id) drafts.now }
{
    for draft in drafts {
        if draft.id == id {
            return Some(draft);
        }
    }
    None
}

/// Whether a desk other than `desk` owns the draft.
fn is_of_other_desk(desk: &Desk, draft: &Draft) -> bool
    ensures { result ≡ is_of_other_desk desk.now draft.now }
{
    draft.owner.bytes() != desk.bytes()
}

/// Returns `NotOwner` if a desk other than `desk`, which sends the request, owns the draft `found`
/// and the request is no take, or `None` otherwise. `found` is the open draft that the request
/// names; without one the result is `None`.
fn not_owner(desk: &Desk, r: &Request, found: Option<&Draft>) -> Option<Refusal>
    ensures { result ≡ not_owner desk.now r.now (option_map (λ d. d.now) found.entry) }
{
    match found {
        Some(draft) => {
            if is_of_other_desk(desk, draft) && !takes(r) {
                Some(Refusal::NotOwner { owner: draft.owner })
            } else {
                None
            }
        }
        None => None,
    }
}

/// Whether the request of `desk` takes another desk's draft less than ten minutes after the last
/// accepted request on that draft. `t` is the minute of the request.
fn comes_early(desk: &Desk, t: Minute, r: &Request, draft: &Draft) -> bool
    ensures { result
        ≡ (is_of_other_desk desk.now draft.now && takes r.now && nat_lt t (draft.now.touched + 10)) }
{
    is_of_other_desk(desk, draft) && takes(r) && t.get() < draft.touched.get() + ACTIVE
}

/// Returns the minute from which on any desk may take a draft: ten minutes after the last accepted
/// request on it.
fn free_at(draft: &Draft) -> Minute
    requires { draft.now.touched ≤ 52000000 }
    ensures { result ≡ draft.now.touched + 10 }
{
    match Minute::new(draft.touched.get() + ACTIVE) {
        Some(minute) => minute,
        None => unreachable!(),
    }
}

/// Returns `StillActive` if the request of `desk` takes another desk's draft less than ten minutes
/// after the last accepted request on that draft, or `None` otherwise. `t` is the minute of the
/// request, and `found` the open draft that it names; without one the result is `None`.
fn still_active(desk: &Desk, t: Minute, r: &Request, found: Option<&Draft>) -> Option<Refusal>
    requires { IfSome found (λ d. d.now.touched ≤ 52000000) }
    ensures { result ≡ still_active desk.now t r.now (option_map (λ d. d.now) found.entry) }
{
    match found {
        Some(draft) => {
            if comes_early(desk, t, r, draft) {
                Some(Refusal::StillActive {
                    free_at: free_at(draft),
                })
            } else {
                None
            }
        }
        None => None,
    }
}

/// Returns `IntentsFull` if the request adds an intent to the draft `found` and the draft has 64
/// intents already, or `None` otherwise. `found` is the open draft that the request names; without
/// one the result is `None`.
fn intents_full(r: &Request, found: Option<&Draft>) -> Option<Refusal>
    ensures { result ≡ intents_full (intent_of r.now) (option_map (λ d. d.now) found.entry) }
{
    match found {
        Some(draft) => {
            if puts(r) && draft.intents.len() >= MOST_INTENTS {
                Some(Refusal::IntentsFull)
            } else {
                None
            }
        }
        None => None,
    }
}

/// Returns `NoIntent` if the draft has no intent at the place, counted from 0, or `None` if it has
/// one.
fn none_at(draft: &Draft, place: u32) -> Option<Refusal>
    ensures { result ≡ (if nat_le (length draft.now.intents) place
        then Some (Refused.NoIntent place)
        else None) }
{
    if draft.intents.len() <= place as usize {
        Some(Refusal::NoIntent { place })
    } else {
        None
    }
}

/// Returns `NoIntent` if the request removes the intent at a place, counted from 0, where the draft
/// `found` has none, or `None` otherwise. `found` is the open draft that the request names; without
/// one the result is `None`.
fn no_intent(r: &Request, found: Option<&Draft>) -> Option<Refusal>
    ensures { result ≡ no_intent r.now (option_map (λ d. d.now) found.entry) }
{
    match r {
        Request::Drop(_, place) => match found {
            Some(draft) => none_at(draft, *place),
            None => None,
        },
        _ => None,
    }
}

impl Office {
    /// Returns the open draft whose id is `id`, or `None` if there is none.
    pub(crate) fn draft_at(&self, id: u32) -> Option<&Draft>
        ensures value { option_map (λ d. d.now) result ≡ draft_at self.now.state id }
        ensures touched { IfSome result (λ d. d.now.touched ≤ 52000000) }
    {
        draft_at(&self.drafts, id)
    }

    /// Returns the open draft that a request names, or `None` if it names none or there is no such
    /// draft.
    pub(crate) fn found_draft(&self, r: &Request) -> Option<&Draft>
        ensures value { option_map (λ d. d.now) result
            ≡ found_draft self.now.state (draft_of r.now) }
        ensures touched { IfSome result (λ d. d.now.touched ≤ 52000000) }
    {
        match draft_of(r) {
            Some(id) => self.draft_at(id),
            None => None,
        }
    }

    /// Returns `NoDraft` if no open draft has the id `id`, or `None` otherwise. `id` is that of the
    /// draft that a request names; for a request that names none it is `None`, and so is the
    /// result.
    fn no_draft(&self, id: Option<u32>) -> Option<Refusal>
        ensures { result ≡ no_draft self.now.state id }
    {
        match id {
            Some(id) => {
                if self.draft_at(id).is_none() {
                    Some(Refusal::NoDraft)
                } else {
                    None
                }
            }
            None => None,
        }
    }

    /// Returns `DraftsFull` if the request opens a draft and 64 are open already, or `None`
    /// otherwise.
    fn drafts_full(&self, r: &Request) -> Option<Refusal>
        ensures { result ≡ drafts_full self.now.state r.now }
    {
        match r {
            Request::Begin(_) => {
                if self.drafts.len() >= MOST_DRAFTS {
                    Some(Refusal::DraftsFull)
                } else {
                    None
                }
            }
            _ => None,
        }
    }

    /// Returns the refusal for the first rule that a request of `desk` at minute `t` breaks on the
    /// drafts, or `None` if it breaks none of them. The rules come in the order NoDraft, NotOwner,
    /// StillActive, DraftsFull, IntentsFull, NoIntent.
    #[tactic(auto, unfolding(crate::specs::Rules::broken_draft))]
    pub(crate) fn broken_draft(&self, desk: &Desk, r: &Request, t: Minute) -> Option<Refusal>
        ensures { result ≡ broken_draft self.now.state desk.now r.now t
            (found_draft self.now.state (draft_of r.now)) }
    {
        let lacking = self.no_draft(draft_of(r));
        if lacking.is_some() {
            return lacking;
        }
        let found = self.found_draft(r);
        let barred = not_owner(desk, r, found);
        if barred.is_some() {
            return barred;
        }
        let active = still_active(desk, t, r, found);
        if active.is_some() {
            return active;
        }
        let full = self.drafts_full(r);
        if full.is_some() {
            return full;
        }
        let filled = intents_full(r, found);
        if filled.is_some() {
            return filled;
        }
        no_intent(r, found)
    }
}
