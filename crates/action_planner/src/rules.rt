//! The rules on a draft, and the first that it breaks.
ghost use Rattle.std.specs.Prelude.{◌≡◌, ◌<◌, IfOk, option_map};
ghost use Rattle.std.specs.List.{All};
ghost use Rattle.std.specs.List.Sorted.{IsStrictlySortedBy};
ghost use Rattle.event_life.specs.Products.{by_key};
ghost use Rattle.hazard_board.specs.Clashes.{least_clash};
ghost use Rattle.hazard_board.specs.Taken.{rows_taken};
ghost use Rattle.hazard_board.specs.Consistent.{IsConsistent};
ghost use Rattle.action_planner.specs.Placed.{Placed as PlacedIntent};
ghost use Rattle.action_planner.specs.Offences.{first_by, refused_clash, too_many};
ghost use Rattle.action_planner.specs.Rules.{offence, first_against, broken_early, broken_late};

use crate::intent_rules::{
    bad_period, barred_flood, barred_open_end, needed_flood, not_open, number_held, numbers_spent,
    site_moved,
};
use crate::placed::Placed;
use crate::spoken::Spoken;
use crate::zone_rules::{ZoneRule, zone_offence};
use hazard_board::Board;
use hazard_types::{Line, List, Minute, Oom};
use office_types::Refusal;
use std::alloc::Global;

/// A rule on single intents, named as its refusal.
#[derive(Clone, Copy)]
pub enum Rule {
    NoEvent,
    NotLive,
    LeftBefore,
    Twice,
    BadPeriod,
    BegunMoved,
    NoOpenEnd,
    FloodNeeded,
    FloodBarred,
    SiteMoved,
    NumberHeld,
    NumbersSpent,
}

/// The rules that are tested before Conflict, in order.
const BEFORE_CONFLICT: [Rule; 10] = [
    Rule::NoEvent,
    Rule::NotLive,
    Rule::LeftBefore,
    Rule::Twice,
    Rule::BadPeriod,
    Rule::BegunMoved,
    Rule::NoOpenEnd,
    Rule::FloodNeeded,
    Rule::FloodBarred,
    Rule::SiteMoved,
];

/// The rules that are tested after Conflict, in order.
const ON_NUMBERS: [Rule; 2] = [Rule::NumberHeld, Rule::NumbersSpent];

/// Returns the refusal of the intent `p` under one rule, or `None` if it keeps the rule. `spoken`
/// has all intents of the draft, and `t` is the minute of issue.
fn offence(board: &Board, t: Minute, spoken: &Spoken, rule: Rule, p: &Placed) -> Option<Refusal>
    requires consistent { IsConsistent board.now.rows t }
    requires place { p.now.place < 64 }
    ensures { result ≡ offence board.now.rows t spoken.now rule p.now }
{
    match rule {
        Rule::NoEvent => not_open(board, t, p),
        Rule::NotLive => zone_offence(board, t, spoken, ZoneRule::NotLive, p),
        Rule::LeftBefore => zone_offence(board, t, spoken, ZoneRule::LeftBefore, p),
        Rule::Twice => zone_offence(board, t, spoken, ZoneRule::Twice, p),
        Rule::BadPeriod => bad_period(t, p),
        Rule::BegunMoved => zone_offence(board, t, spoken, ZoneRule::BegunMoved, p),
        Rule::NoOpenEnd => barred_open_end(p),
        Rule::FloodNeeded => needed_flood(p),
        Rule::FloodBarred => barred_flood(p),
        Rule::SiteMoved => site_moved(board, p),
        Rule::NumberHeld => number_held(board, t, p),
        Rule::NumbersSpent => numbers_spent(p),
    }
}

/// Returns the refusal of the first intent of the draft that breaks the rule, or `None` if all keep
/// it. `spoken` has the intents, in their order, and `t` is the minute of issue.
fn first_offence(board: &Board, t: Minute, spoken: &Spoken, rule: Rule) -> Option<Refusal>
    requires consistent { IsConsistent board.now.rows t }
    requires places { All (λ (p : PlacedIntent). p.place < 64) spoken.now }
    ensures { result ≡ first_by (offence board.now.rows t spoken.now rule) spoken.now }
{
    for p in spoken.intents() {
        let found = offence(board, t, spoken, rule, p);
        if found.is_some() {
            return found;
        }
    }
    None
}

/// Returns the refusal under the first of `rules`, in their order, that an intent of the draft
/// breaks, for the first such intent. `None` if all intents keep all of them; `t` is the minute of
/// issue.
fn first_against(board: &Board, t: Minute, spoken: &Spoken, rules: &[Rule]) -> Option<Refusal>
    requires consistent { IsConsistent board.now.rows t }
    requires places { All (λ (p : PlacedIntent). p.place < 64) spoken.now }
    ensures { result ≡ first_against board.now.rows t spoken.now rules.now }
{
    for rule in rules {
        let found = first_offence(board, t, spoken, *rule);
        if found.is_some() {
            return found;
        }
    }
    None
}

/// Returns the refusal Conflict if two rows of one family in one zone are live at `t` and overlap
/// once a product with `lines` is issued at `t`, else `None`. It names the first such pair, by
/// zone, then by the first event and the second. Among the rows of the board that no line has ended
/// there must be no such overlap before.
///
/// # Errors
///
/// Out of memory.
pub fn conflict(
    alloc: Global,
    board: &Board,
    t: Minute,
    lines: &List<Line>,
) -> Result<Option<Refusal>, Oom>
    requires consistent { IsConsistent board.now.rows t }
    ensures clash { IfOk result (λ found.
        found ≡ option_map refused_clash (least_clash t (rows_taken board.now.rows t lines.now))) }
    ensures order { IsStrictlySortedBy by_key board.now.rows }
{
    let clash = board.conflict_in_zones(alloc, lines, t)?;
    Ok(clash.map(|clash| Refusal::Conflict {
        zone: clash.zone,
        first: clash.first,
        second: clash.second,
    }))
}

/// Returns the refusal TooManyLines if the number of lines is above 2,000, else `None`.
pub fn too_many(lines: usize) -> Option<Refusal>
    ensures { result ≡ too_many lines }
{
    if lines > 2000 {
        Some(Refusal::TooManyLines { lines })
    } else {
        None
    }
}

/// Returns the refusal under the first broken rule among those that are tested without lines, at
/// minute of issue `t`, or `None` if all are kept. In order they are EmptyDraft, NoEvent, NotLive,
/// LeftBefore, Twice, BadPeriod, BegunMoved, NoOpenEnd, FloodNeeded, FloodBarred and SiteMoved.
#[tactic(auto, unfolding(crate::specs::Rules::broken_early))]
pub fn broken_early(board: &Board, t: Minute, spoken: &Spoken) -> Option<Refusal>
    requires consistent { IsConsistent board.now.rows t }
    requires places { All (λ (p : PlacedIntent). p.place < 64) spoken.now }
    ensures { result ≡ broken_early board.now.rows t spoken.now }
{
    if spoken.intents().is_empty() {
        return Some(Refusal::EmptyDraft);
    }
    first_against(board, t, spoken, &BEFORE_CONFLICT)
}

/// Returns the refusal under the first broken rule among those that are tested after
/// `broken_early`, or `None` if all are kept: Conflict, then NumberHeld and NumbersSpent, then
/// TooManyLines. `lines` are those of the draft `spoken`, and `t` is the minute of issue.
///
/// # Errors
///
/// Out of memory.
///
/// Source: docs/REQUESTS.md, "What a product says"; docs/DECISIONS.md, "Plans".
#[tactic(auto, unfolding(crate::specs::Rules::broken_late))]
pub fn broken_late(
    alloc: Global,
    board: &Board,
    t: Minute,
    spoken: &Spoken,
    lines: &List<Line>,
) -> Result<Option<Refusal>, Oom>
    requires consistent { IsConsistent board.now.rows t }
    requires places { All (λ (p : PlacedIntent). p.place < 64) spoken.now }
    ensures broken { IfOk result
        (λ found. found ≡ broken_late board.now.rows t spoken.now lines.now) }
    ensures order { IsStrictlySortedBy by_key board.now.rows }
{
    let overlap = conflict(alloc, board, t, lines)?;
    if overlap.is_some() {
        return Ok(overlap);
    }
    let late = first_against(board, t, spoken, &ON_NUMBERS);
    if late.is_some() {
        return Ok(late);
    }
    Ok(too_many(lines.len()))
}
