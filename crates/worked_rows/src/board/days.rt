//! A day at a desk: the board, the event tracking numbers and the products after the drafts that
//! were sent.
ghost use Rattle.std.specs.Prelude.{◌≡◌, ◌<◌, ◌≤◌, [], ◌∷◌, ◌++◌, length, None, Some, Err, IfOk, OnOk, OnErr};
ghost use Rattle.std.specs.List.{AllByRecursion};
ghost use Rattle.hazard_types.specs.declared.or.Or.TheVariants.{No};
ghost use Rattle.office_types.specs.declared.refusal.Refusal.{Refusal as Refused};
ghost use Rattle.event_life.specs.Products.{rows_after};
ghost use Rattle.event_numbers.specs.Counts.{DrawsAll};
ghost use Rattle.action_planner.specs.Offences.{broken};
ghost use Rattle.action_planner.specs.Placed.{placed, opened};
ghost use Rattle.action_planner.specs.Plans.{IsPlan};
ghost use Rattle.action_planner.specs.Corrections.{IsCorrection, broken_correction};
ghost use Rattle.office_types.specs.declared.request.Sent.{Sent as AnySent};
ghost use Rattle.worked_rows.specs.Days.{IsAt, MaySend, last_of, letters_of, number_behind, original_of, sent_of};
ghost use Rattle.worked_rows.specs.Written.{CanBeWritten};

use crate::board::series::{last_of, letters_of, original_of};
use action_planner::{
    corrected_lines_are_distinct, corrections_keep_what_stands, lines_have_four_digits,
    nothing_stands_at_first, opened_events_are_drawn_in_order, plan, plan_correction,
    planned_lines_are_distinct, plans_keep_what_stands, standing_conditions_persist,
};
use event_life::rows_stay_in_order;
use event_numbers::Numbers;
use hazard_board::{Board, openings};
use hazard_types::{List, Minute, Oom, Or};
use office_types::{Draft, EventTexts, Plan, Refusal, Sent};
use std::alloc::Global;
use std::marker::Model;

/// The rows, event tracking numbers and products of an office, and the minute of the last product.
#[derive(Drop)]
pub struct Day {
    board: Board,
    numbers: Numbers,
    products: List<Sent>,
    last: Minute,
}

impl Model for Day {
    ghost use Rattle.std.specs.List.{AllByRecursion};
    ghost use Rattle.std.specs.List.Sorted.{IsStrictlySortedBy};
    ghost use Rattle.event_life.specs.Products.{by_key};
    ghost use Rattle.action_planner.specs.Standing.{Stands};
    ghost use Rattle.worked_rows.specs.Days.{HasApart, Standing};

    ghost Value = { Standing };

    ghost view = { λ d. record { rows = d.board.rows; counts = d.numbers.counts; products = d.products; last = d.last } };

    ghost invariant = { λ d. Stands d.board.rows d.numbers.counts d.last
        × IsStrictlySortedBy by_key d.board.rows × AllByRecursion HasApart d.products };
}

/// Returns the number of the product that comes after `before` others: `before + 1`, at most
/// 4,294,967,295.
fn number_behind(before: usize) -> u32
    ensures { result ≡ number_behind before }
{
    match u32::try_from(before) {
        Ok(before) => before.saturating_add(1),
        Err(_) => u32::MAX,
    }
}

/// Returns the product of a plan, sent at minute `t` after `before` other products, with an empty
/// text. Its number is `before + 1`, and `original` is the number of the product that it corrects,
/// or `None` if it is no correction.
fn sent_of(
    alloc: Global,
    before: usize,
    plan: &Plan,
    t: Minute,
    original: Option<u32>,
) -> Result<Sent, Oom>
    ensures { IfOk result (λ sent. sent ≡ sent_of before plan.now t original) }
{
    let number = number_behind(before);
    let lines = plan.lines.clone()?;
    let texts = plan.texts.clone()?;
    Ok(Sent {
        number,
        category: plan.category,
        time: t,
        original,
        lines,
        texts,
        text: List::new(alloc),
    })
}

impl Day {
    /// Returns a day with no row, no event tracking number and no product.
    pub fn new(alloc: Global) -> Self
        ensures rows { result.rows ≡ [] }
        ensures counts { result.counts ≡ [] }
        ensures products { result.products ≡ [] }
        ensures last { result.last ≡ 0 }
    {
        nothing_stands_at_first();
        Day {
            board: Board::new(alloc),
            numbers: Numbers::new(alloc),
            products: List::new(alloc),
            last: Minute::new(0).unwrap(),
        }
    }

    /// Returns the minute of the last product; 0 before the first.
    pub fn last(&self) -> Minute
        ensures { result ≡ self.now.last }
    {
        self.last
    }

    /// Returns the number of products that were sent.
    pub fn count(&self) -> usize
        ensures { result ≡ length self.now.products }
    {
        self.products.len()
    }

    /// Returns the plan that a draft has if it is sent at minute `t`; the day stays as it is. `t`
    /// must not be before the last product nor above 52,000,000, and the draft must have at most 64
    /// intents, each such as its category may hold (`may_hold`).
    ///
    /// # Errors
    ///
    /// - `No` with the first rule that the draft breaks.
    /// - `OutOfMemory`.
    pub fn plan(&self, alloc: Global, draft: &Draft, t: Minute) -> Result<Plan, Or<Refusal>>
        requires { MaySend draft.now.category draft.now.intents self.now.last t }
        ensures plan { IfOk result (λ plan. IsPlan draft.now.category self.now.rows t
            (placed self.now.counts t draft.now.intents) plan) }
        ensures written { IfOk result (λ plan. AllByRecursion CanBeWritten plan.segments) }
        ensures kept { OnOk result (broken draft.now.category self.now.rows t
            (placed self.now.counts t draft.now.intents) ≡ None) }
        ensures refused { (r : Refused) → result ≡ Err (No r) →
            broken draft.now.category self.now.rows t
            (placed self.now.counts t draft.now.intents) ≡ Some r }
    {
        standing_conditions_persist();
        lines_have_four_digits();
        let plan = plan(alloc, &self.board, &self.numbers, draft, t)?;
        Ok(plan)
    }

    /// Sends a draft at minute `t` and returns its plan, or errs with the first rule that the draft
    /// breaks, or if memory runs out. The lines of the plan change the rows, each event that it
    /// opens uses up its event tracking number, and its product comes after the others. `t` must
    /// not be before the last product nor above 52,000,000, and the draft must have at most 64
    /// intents, each such as its category may hold (`may_hold`).
    ///
    /// # Errors
    ///
    /// The day is then unchanged.
    pub fn send(&mut self, alloc: Global, draft: &Draft, t: Minute) -> Result<Plan, Or<Refusal>>
        requires { MaySend draft.now.category draft.now.intents self.old.last t }
        ensures plan { IfOk result (λ plan. IsPlan draft.now.category self.old.rows t
            (placed self.old.counts t draft.now.intents) plan) }
        ensures written { IfOk result (λ plan. AllByRecursion CanBeWritten plan.segments) }
        ensures rows { IfOk result (λ plan. self.new.rows ≡ rows_after self.old.rows t plan.lines) }
        ensures counts { OnOk result (DrawsAll self.old.counts self.new.counts
            (opened (placed self.old.counts t draft.now.intents))) }
        ensures products { IfOk result (λ plan. self.new.products ≡
            self.old.products ++ sent_of (length self.old.products) plan t None ∷ []) }
        ensures last { OnOk result (self.new.last ≡ t) }
        ensures kept { OnOk result (broken draft.now.category self.old.rows t
            (placed self.old.counts t draft.now.intents) ≡ None) }
        ensures refused { (r : Refused) → result ≡ Err (No r) →
            broken draft.now.category self.old.rows t
            (placed self.old.counts t draft.now.intents) ≡ Some r }
        ensures unchanged { OnErr result (self.new ≡ self.old) }
    {
        standing_conditions_persist();
        opened_events_are_drawn_in_order();
        plans_keep_what_stands();
        planned_lines_are_distinct();
        lines_have_four_digits();
        rows_stay_in_order();
        let plan = plan(alloc, &self.board, &self.numbers, draft, t)?;
        self.board.reserve(openings(plan.lines.as_slice()))?;
        self.numbers.reserve(plan.opened.len())?;
        let sent = sent_of(alloc, self.products.len(), &plan, t, None)?;
        self.products.push(sent)?;
        self.board.apply(&plan.lines, t);
        self.numbers.draw(plan.opened.as_slice());
        self.last = t;
        Ok(plan)
    }

    /// Corrects the product at index `place`, from 0, with `texts` as the new texts by event, and
    /// returns the plan of the correction, or errs with the first rule that it breaks, or if memory
    /// runs out. The lines of the product that are still live are written again, and the correction
    /// comes after the other products. There must be a product at `place`, and `t`, the minute of
    /// the correction, must not be before the last product nor above 52,000,000.
    ///
    /// # Errors
    ///
    /// The day is then unchanged.
    pub fn correct(
        &mut self,
        alloc: Global,
        place: usize,
        texts: &List<EventTexts>,
        t: Minute,
    ) -> Result<Plan, Or<Refusal>>
        requires place { place < length self.old.products }
        requires later { self.old.last ≤ t }
        requires soon { t ≤ 52000000 }
        ensures plan { IfOk result (λ plan. (s : AnySent) → IsAt self.old.products place s →
            IsCorrection self.old.rows t s (letters_of self.old.products (original_of s))
            texts.now plan) }
        ensures written { IfOk result (λ plan. AllByRecursion CanBeWritten plan.segments) }
        ensures rows { IfOk result (λ plan. self.new.rows ≡ rows_after self.old.rows t plan.lines) }
        ensures counts { OnOk result (self.new.counts ≡ self.old.counts) }
        ensures products { IfOk result (λ plan. (s : AnySent) → IsAt self.old.products place s →
            self.new.products ≡ self.old.products
            ++ sent_of (length self.old.products) plan t (Some (original_of s)) ∷ []) }
        ensures last { OnOk result (self.new.last ≡ t) }
        ensures kept { OnOk result ((s : AnySent) → IsAt self.old.products place s →
            broken_correction self.old.rows t s (last_of self.old.products s.category)
            (letters_of self.old.products (original_of s)) texts.now ≡ None) }
        ensures refused { (r : Refused) → result ≡ Err (No r) →
            (s : AnySent) → IsAt self.old.products place s →
            broken_correction self.old.rows t s (last_of self.old.products s.category)
            (letters_of self.old.products (original_of s)) texts.now ≡ Some r }
        ensures unchanged { OnErr result (self.new ≡ self.old) }
    {
        standing_conditions_persist();
        corrections_keep_what_stands();
        corrected_lines_are_distinct();
        lines_have_four_digits();
        rows_stay_in_order();
        let products = self.products.as_slice();
        let before = &products[place];
        let original = original_of(before);
        let last = last_of(products, before.category);
        let letters = letters_of(products, original);
        let correction = plan_correction(alloc, &self.board, before, last, letters, texts, t)?;
        self.board.reserve(openings(correction.lines.as_slice()))?;
        let sent = sent_of(alloc, products.len(), &correction, t, Some(original))?;
        self.products.push(sent)?;
        self.board.apply(&correction.lines, t);
        self.last = t;
        Ok(correction)
    }

    /// Returns the board of the day, which has the rows that the products sent so far have left.
    pub fn board(&self) -> &Board
        ensures { result.now.rows ≡ self.now.rows }
    {
        &self.board
    }
}
