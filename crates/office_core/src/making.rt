//! The product that a send, an issue or a correction makes, or the first rule that it breaks.
ghost use Rattle.std.specs.Prelude.{◌≡◌, ◌≤◌, Some, None, Err, IfOk, OnOk, option_map};
ghost use Rattle.hazard_types.specs.Hazards.{facts_of};
ghost use Rattle.hazard_types.specs.declared.or.Or.TheVariants.{No};
ghost use Rattle.office_types.specs.declared.refusal.Refusal.{Refusal as Refused};
ghost use Rattle.product_frame.specs.Frame.{FrameOf};
ghost use Rattle.product_frame.specs.Splitting.{IsOneProduct};
ghost use Rattle.product_template.specs.Conditions.{CanBeText};
ghost use Rattle.product_template.specs.Text.{frame_of};
ghost use Rattle.office_core.specs.Making.{broken_product, corrected_by, drafted_by, issued, making_of, opening_of};
ghost use Rattle.office_core.specs.State.{product_in};
ghost use Rattle.office_core.specs.Requests.{hazard_of_target};
ghost use Rattle.office_core.specs.Sound.{IsSoundMaking};
ghost use Rattle.office_core.specs.Step.{BreaksOnLines};
ghost use Rattle.office_core.specs.WellMade.{IsWellMade, IsWellMadeIf, made_with};

use crate::copies::clone_put;
use crate::made::Made;
use crate::office::Office;
use crate::replies::find_draft;
use crate::series::{last_of_category, letters_of, original_of};
use crate::soundness_laws::{sound_plans_may_be_written, sound_products_may_be_planned};
use action_planner::{
    opened_events_are_drawn_in_order, plan, plan_correction, rows_tell_the_numbers,
};
use hazard_types::desk_hazards::facts;
use hazard_types::{Category, List, Minute, Oom, Or};
use office_types::{
    Desk, Draft, EventTexts, Intent, Plan, PutPart, Refusal, Request, Sent, Target,
};
use product_template::product_text;
use std::alloc::Global;

/// The most products of an office.
const MOST_PRODUCTS: usize = 8192;

/// Returns the category of the products that open events of the target's hazard. It is WSW for a
/// hazard that the desk does not issue.
fn opening_of(target: &Target) -> Category
    ensures { result ≡ opening_of (facts_of (hazard_of_target target.now)) }
{
    let hazard = match target {
        Target::Fresh(hazard) => *hazard,
        Target::Join(event) => event.hazard,
    };
    match facts(hazard) {
        Some(known) => known.opens,
        None => Category::Wsw,
    }
}

/// Returns the draft from which the product of an issue by `desk` at minute `t` is made. It has
/// `part` as its one intent, and the category whose products open events of the part's hazard, or
/// WSW for a hazard that the desk does not issue. Its id is 0, and it is not among the open drafts.
fn issued(alloc: Global, desk: &Desk, part: &PutPart, t: Minute) -> Result<Draft, Oom>
    ensures { IfOk result (λ draft. drafted_by (Some draft) ≡ issued part.now) }
{
    let mut intents = List::new(alloc);
    intents.push(Intent::Put(clone_put(part)?))?;
    Ok(Draft {
        id: 0,
        owner: *desk,
        category: opening_of(&part.target),
        touched: t,
        intents,
    })
}

/// Returns the product with this number, or `None` if there is none. `products` are all that were
/// sent, in order, and have the numbers 1, 2 and so on.
fn product_in(products: &[Sent], number: u32) -> Option<&Sent>
    ensures { option_map (λ sent. sent.now) result ≡ product_in products.now number }
{
    match number {
        0 => None,
        _ => products.get(number as usize - 1),
    }
}

impl Office {
    /// Returns the product of a plan that is sent at minute `t`, with the next number, and the
    /// events that it opens. `original` is the number of the product that it corrects, `None` if it
    /// is no correction. It errs with `TooLong` if the text has more than 65,536 bytes, and with
    /// `ProductsFull` if the office has sent 8,192 products.
    #[tactic(auto, unfolding(crate::specs::Making::broken_product))]
    fn write(
        &self,
        alloc: Global,
        plan: Plan,
        original: Option<u32>,
        t: Minute,
    ) -> Result<Made, Or<Refusal>>
        requires { CanBeText self.now.state.settings self.now.state.class plan t }
        ensures made { IfOk result (λ made. made ≡ made_with self.now.state t original plan) }
        ensures kept { OnOk result (broken_product self.now.state t plan ≡ None) }
        ensures frame { IfOk result (λ made.
            FrameOf made.sent.text (frame_of self.now.state.settings self.now.state.class plan t)) }
        ensures one { IfOk result (λ made. IsOneProduct made.sent.text) }
        ensures refused { (x : Refused) →
            result ≡ Err (No x) → broken_product self.now.state t plan ≡ Some x }
    {
        let text = product_text(alloc, &self.settings, self.class, &plan, t, self.edition)?;
        let before = self.products.len();
        if before >= MOST_PRODUCTS {
            return Err(Or::No(Refusal::ProductsFull));
        }
        Ok(Made {
            sent: Sent {
                number: before as u32 + 1,
                category: plan.category,
                time: t,
                original,
                lines: plan.lines,
                texts: plan.texts,
                text,
            },
            opened: plan.opened,
        })
    }

    /// Returns the product of a draft that is sent at minute `t`, with the events that it opens, or
    /// errs with the refusal for the first rule that its lines or its text break. The office is not
    /// changed.
    pub(crate) fn make_drafted(
        &self,
        alloc: Global,
        draft: &Draft,
        t: Minute,
    ) -> Result<Made, Or<Refusal>>
        requires last { self.now.state.last ≤ t }
        requires minute { t ≤ 52000000 }
        requires sound { IsSoundMaking self.now.state (drafted_by (Some draft.now)) }
        ensures made { IfOk result (λ made.
            IsWellMade self.now.state self.now.counts t (drafted_by (Some draft.now)) made) }
        ensures refused { (x : Refused) →
            result ≡ Err (No x) → BreaksOnLines self.now.state t (drafted_by (Some draft.now)) x }
    {
        sound_products_may_be_planned();
        sound_plans_may_be_written();
        rows_tell_the_numbers();
        opened_events_are_drawn_in_order();
        let plan = plan(alloc, &self.board, &self.numbers, draft, t)?;
        self.write(alloc, plan, None, t)
    }

    /// Returns the correction of the product `sent`, sent at minute `t`, or errs with the refusal
    /// for the first rule that it breaks. `given` are events with the texts that replace those of
    /// the product. The office is not changed.
    fn make_corrected(
        &self,
        alloc: Global,
        sent: &Sent,
        given: &List<EventTexts>,
        t: Minute,
    ) -> Result<Made, Or<Refusal>>
        requires last { self.now.state.last ≤ t }
        requires minute { t ≤ 52000000 }
        requires sound { IsSoundMaking self.now.state (corrected_by given.now (Some sent.now)) }
        ensures made { IfOk result (λ made. IsWellMade self.now.state self.now.counts t
            (corrected_by given.now (Some sent.now)) made) }
        ensures refused { (x : Refused) →
            result ≡ Err (No x) →
            BreaksOnLines self.now.state t (corrected_by given.now (Some sent.now)) x }
    {
        sound_products_may_be_planned();
        sound_plans_may_be_written();
        let original = original_of(sent);
        let last = last_of_category(&self.products, sent.category);
        let letters = letters_of(&self.products, original);
        let plan = plan_correction(alloc, &self.board, sent, last, letters, given, t)?;
        self.write(alloc, plan, Some(original), t)
    }

    /// Returns the product that an issue, a send or a correction of `desk` makes at minute `t`.
    /// `None` for any other request, for a send of a draft that is not open, and for a correction
    /// of a product that there is not. It errs with the refusal for the first rule that the
    /// product's lines or its text break.
    #[tactic(auto, using(crate::proofs::MakingLemmas::nothing_made))]
    pub(crate) fn make(
        &self,
        alloc: Global,
        desk: &Desk,
        r: &Request,
        t: Minute,
    ) -> Result<Option<Made>, Or<Refusal>>
        requires last { self.now.state.last ≤ t }
        requires minute { t ≤ 52000000 }
        requires sound { IsSoundMaking self.now.state (making_of self.now.state r.now) }
        ensures made { IfOk result (λ made.
            IsWellMadeIf self.now.state self.now.counts t (making_of self.now.state r.now) made) }
        ensures refused { (x : Refused) →
            result ≡ Err (No x) →
            BreaksOnLines self.now.state t (making_of self.now.state r.now) x }
    {
        match r {
            Request::Issue(part) => {
                let draft = issued(alloc, desk, part, t)?;
                Ok(Some(self.make_drafted(alloc, &draft, t)?))
            }
            Request::Send(id) => match find_draft(&self.drafts, *id) {
                Some(draft) => Ok(Some(self.make_drafted(alloc, draft, t)?)),
                None => Ok(None),
            },
            Request::Correct(number, given) => match product_in(&self.products, *number) {
                Some(sent) => Ok(Some(self.make_corrected(alloc, sent, given, t)?)),
                None => Ok(None),
            },
            Request::Begin(_)
            | Request::Put(..)
            | Request::Finish(..)
            | Request::Restate(..)
            | Request::Routine(..)
            | Request::Drop(..)
            | Request::Take(_)
            | Request::Discard(_) => Ok(None),
        }
    }
}
