//! The plan of a draft.
ghost use Rattle.std.specs.Prelude.{◌≡◌, ◌↔◌, Some, None, Err, IfOk, OnOk, IsTrue, Contains};
ghost use Rattle.hazard_types.specs.declared.line.Line.{Line as SaidLine};
ghost use Rattle.hazard_types.specs.declared.or.Or.TheVariants.{No};
ghost use Rattle.office_types.specs.declared.refusal.Refusal.{Refusal as Refused};
ghost use Rattle.event_life.specs.Reordered.{are_lawful};
ghost use Rattle.action_planner.specs.Cases.{IsPlanned};
ghost use Rattle.action_planner.specs.Conditions.{CanPlan};
ghost use Rattle.action_planner.specs.Lines.{planned_lines};
ghost use Rattle.action_planner.specs.Offences.{broken};
ghost use Rattle.action_planner.specs.Placed.{placed};
ghost use Rattle.action_planner.specs.Plans.{HasLines, IsPlan};

use crate::lines::planned_lines;
use crate::placed::{Placed, opened_events, place_all};
use crate::rules::{broken_early, broken_late};
use crate::sending::Sending;
use crate::spoken::Spoken;
use crate::texts::event_texts;
use event_numbers::Numbers;
use hazard_board::Board;
use hazard_types::{Category, Line, List, Minute, Oom, Or};
use office_types::{Draft, Plan, Refusal};
use segmenter::segments;
use std::alloc::Global;

/// Returns the plan of a draft of the category with `lines`, which are the draft's: their segments,
/// the events that its intents `ps` open, and the texts of each event that has a line. It has no
/// BBB letter, as it is no correction.
///
/// # Errors
///
/// Out of memory.
fn plan_of(alloc: Global, category: Category, lines: List<Line>, ps: &[Placed]) -> Result<Plan, Oom>
    ensures { IfOk result (λ plan. HasLines category lines ps.now plan) }
{
    let segments = segments(alloc, &lines)?;
    let opened = opened_events(alloc, ps)?;
    let texts = event_texts(alloc, ps, lines.as_slice())?;
    Ok(Plan {
        category,
        bbb: None,
        lines,
        segments,
        opened,
        texts,
    })
}

/// Returns the plan of a draft that is sent at minute `t`: its lines, their segments, the events
/// that it opens and the texts of each event. The lines are those of the intents, and `CON` for
/// each other live row in the zones of the draft whose hazard products of the category follow up
/// and is not of phenomenon FL. The draft must pass `may_be_planned`, `board` and `numbers` must be
/// those of one office, and `t` at most 52,000,000.
///
/// # Errors
///
/// `Or::No` with the first rule that the draft breaks, and otherwise out of memory.
///
/// Source: NWS Instruction 10-1703, P-VTEC action codes; docs/PRODUCTS.md, "Which action a line
/// gets"; docs/DECISIONS.md, "Plans".
#[tactic(auto, using(crate::proofs::RulesLemmas::places_below))]
pub fn plan(
    alloc: Global,
    board: &Board,
    numbers: &Numbers,
    draft: &Draft,
    t: Minute,
) -> Result<Plan, Or<Refusal>>
    requires { CanPlan board.now.rows numbers.now.counts draft.now.category draft.now.intents t }
    ensures plan { IfOk result (λ plan. IsPlan draft.now.category board.now.rows t
        (placed numbers.now.counts t draft.now.intents) plan) }
    ensures cases { IfOk result (λ plan. (line : SaidLine) →
        Contains plan.lines line
        ↔ IsPlanned draft.now.category board.now.rows t
        (placed numbers.now.counts t draft.now.intents) line) }
    ensures lawful { IfOk result (λ plan. IsTrue (are_lawful board.now.rows t plan.lines)) }
    ensures kept { OnOk result
        (broken draft.now.category board.now.rows t (placed numbers.now.counts t draft.now.intents)
        ≡ None) }
    ensures refused { (r : Refused) →
        result ≡ Err (No r) →
        broken draft.now.category board.now.rows t (placed numbers.now.counts t draft.now.intents)
        ≡ Some r }
{
    let ps = place_all(alloc, numbers, draft.intents.as_slice(), t)?;
    let spoken = Spoken::new(alloc, &ps)?;
    if let Some(refusal) = broken_early(board, t, &spoken) {
        return Err(Or::No(refusal));
    }
    let sending = Sending::new(alloc, board, t, &spoken)?;
    let lines = planned_lines(alloc, &sending, draft.category)?;
    if let Some(refusal) = broken_late(alloc, board, t, &spoken, &lines)? {
        return Err(Or::No(refusal));
    }
    Ok(plan_of(alloc, draft.category, lines, &ps)?)
}
