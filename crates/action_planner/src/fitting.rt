//! Whether a draft may hold an intent: the tests of its hazard, category and zones.
ghost use Rattle.std.specs.Prelude.{◌≡◌, ◌≤◌, ◌↔◌, find, length, None, IsTrue};
ghost use Rattle.std.specs.List.{All};
ghost use Rattle.hazard_types.specs.Hazards.{facts_of};
ghost use Rattle.action_planner.specs.Conditions.{AreOfKind, AreZones, MayHold};
ghost use Rattle.action_planner.specs.Fitting.{of_other_kind, are_of_kind, opens_with, fits_target, fits_following, fits, is_before_first, ascend, stand_once, is_valid_zone_list, may_hold};
ghost use Rattle.action_planner.specs.Lines.{follows};

use crate::lines::follows;
use crate::placed::zones_of;
use hazard_types::desk_hazards::facts;
use hazard_types::{Category, Facts, Hazard, Zone};
use office_types::{Draft, Intent, Target};

/// The most intents of a draft.
pub const MOST_INTENTS: usize = 64;

/// The most zones of an intent.
const MOST_ZONES: usize = 600;

/// Whether the zone is of another kind (county or forecast zone) than the hazard with the facts
/// `known` needs. False for `None`, the facts of a hazard that the desk does not issue.
fn of_other_kind(known: &Option<Facts>, zone: &Zone) -> bool
    ensures { result ≡ of_other_kind known.now zone.now }
{
    match known {
        Some(known) => zone.kind() != known.kind,
        None => false,
    }
}

/// Returns the first zone of another kind than the hazard with the facts `known` needs, or `None`
/// if there is none or the desk does not issue the hazard.
fn first_other(known: &Option<Facts>, zones: &[Zone]) -> Option<Zone>
    ensures { result ≡ find (of_other_kind known.now) zones.now }
{
    for zone in zones {
        if of_other_kind(known, zone) {
            return Some(*zone);
        }
    }
    None
}

/// Returns the first zone that is not of the kind (county or forecast zone) that the hazard needs,
/// or `None` if there is none or the desk does not issue the hazard.
///
/// Source: docs/HAZARDS.md.
pub fn wrong_kind(hazard: &Hazard, zones: &[Zone]) -> Option<Zone>
    ensures first { result ≡ find (of_other_kind (facts_of hazard.now)) zones.now }
    ensures none { (result ≡ None) ↔ AreOfKind hazard.now zones.now }
{
    first_other(&facts(*hazard), zones)
}

/// Whether all zones are of the kind (county or forecast zone) that the hazard needs. True for a
/// hazard that the desk does not issue.
fn are_of_kind(hazard: &Hazard, zones: &[Zone]) -> bool
    ensures { result ≡ are_of_kind (facts_of hazard.now) zones.now }
{
    wrong_kind(hazard, zones).is_none()
}

/// Whether products of the category open new events of the hazard. False for a hazard that the desk
/// does not issue.
fn opens_with(category: Category, hazard: &Hazard) -> bool
    ensures { result ≡ opens_with category (facts_of hazard.now) }
{
    match facts(*hazard) {
        Some(known) => known.opens == category,
        None => false,
    }
}

/// Whether a product of the category may do what the target of a put asks for, open a new event of
/// a hazard or follow up an event that exists, and all zones are of the kind (county or forecast
/// zone) that its hazard needs.
fn fits_target(category: Category, target: &Target, zones: &[Zone]) -> bool
    ensures { result ≡ fits_target category target.now zones.now }
{
    match target {
        Target::Fresh(hazard) => opens_with(category, hazard) && are_of_kind(hazard, zones),
        Target::Join(event) => {
            follows(category, &event.hazard) && are_of_kind(&event.hazard, zones)
        }
    }
}

/// Whether a product of the category may follow up events of the hazard, and all zones are of the
/// kind (county or forecast zone) that the hazard needs.
fn fits_following(category: Category, hazard: &Hazard, zones: &[Zone]) -> bool
    ensures { result ≡ fits_following category hazard.now zones.now }
{
    follows(category, hazard) && are_of_kind(hazard, zones)
}

/// Whether a draft of the category may hold the intent, as far as its hazard and the kind of its
/// zones decide. The number of the zones, and whether one is given twice, is not tested.
fn fits(category: Category, intent: &Intent) -> bool
    ensures { result ≡ fits category intent.now }
{
    let zones = zones_of(intent);
    match intent {
        Intent::Put(part) => fits_target(category, &part.target, zones),
        Intent::Finish(part) => fits_following(category, &part.event.hazard, zones),
        Intent::Restate(part) => fits_following(category, &part.event.hazard, zones),
        Intent::Routine(part) => fits_following(category, &part.hazard, zones),
    }
}

/// Whether the zone sorts strictly before the first of `later`; true if `later` is empty.
fn is_before_first(zone: &Zone, later: &[Zone]) -> bool
    ensures { result ≡ is_before_first zone.now later.now }
{
    match later {
        [] => true,
        [next, ..] => zone.cmp(next).is_lt(),
    }
}

/// Whether the zones are in strictly ascending order.
fn ascend(zones: &[Zone]) -> bool
    ensures { result ≡ ascend zones.now }
{
    for (place, zone) in zones.iter().enumerate() {
        if !is_before_first(zone, &zones[place + 1..]) {
            return false;
        }
    }
    true
}

/// Whether the zones are distinct, in whatever order. `sorted` must have the same length, and is
/// overwritten with a sorted copy of them.
#[tactic(auto, using(crate::proofs::OnceLemmas::once_sorted))]
fn are_distinct_in(sorted: &mut [Zone], zones: &[Zone]) -> bool
    requires { length sorted.old ≡ length zones.now }
    ensures { result ≡ stand_once zones.now }
{
    sorted.copy_from_slice(zones);
    sorted.sort_unstable();
    ascend(sorted)
}

/// Whether the zones, 1 to 600 in whatever order, are distinct. Sorts a copy of them on the stack.
fn are_distinct_unordered(zones: &[Zone]) -> bool
    requires some { 1 ≤ length zones.now }
    requires few { length zones.now ≤ 600 }
    ensures { result ≡ stand_once zones.now }
{
    let mut sorted = [zones[0]; MOST_ZONES];
    are_distinct_in(&mut sorted[..zones.len()], zones)
}

/// Whether the zones, 1 to 600 in whatever order, are distinct. They are copied only if they are
/// not in ascending order.
fn stand_once(zones: &[Zone]) -> bool
    requires some { 1 ≤ length zones.now }
    requires few { length zones.now ≤ 600 }
    ensures { result ≡ stand_once zones.now }
{
    if ascend(zones) {
        return true;
    }
    are_distinct_unordered(zones)
}

/// Whether there are 1 to 600 zones, all distinct.
fn is_zone_list(zones: &[Zone]) -> bool
    ensures { result ≡ is_valid_zone_list zones.now }
{
    1 <= zones.len() && zones.len() <= MOST_ZONES && stand_once(zones)
}

/// Whether there are 1 to 600 zones, all distinct.
///
/// Source: docs/REQUESTS.md, "Drafts and the parts of a request" (E13 BadZoneList).
pub fn is_valid_zone_list(zones: &[Zone]) -> bool
    ensures { IsTrue result ↔ AreZones zones.now }
{
    is_zone_list(zones)
}

/// Whether a draft of the category may hold the intent: products of the category open events of its
/// hazard, for a put of a new event, or follow them up, for any other intent; and it has 1 to 600
/// distinct zones, all of the kind (county or forecast zone) that the hazard needs.
fn holds(category: Category, intent: &Intent) -> bool
    ensures { result ≡ may_hold category intent.now }
{
    fits(category, intent) && is_zone_list(zones_of(intent))
}

/// Whether a draft of the category may hold the intent: the desk issues its hazard in this
/// category, and it has 1 to 600 distinct zones, all of the hazard's kind. A new event is tested by
/// the category that opens its hazard, every other by the one that follows it.
///
/// Source: docs/DECISIONS.md, "Plans"; docs/HAZARDS.md.
pub fn may_hold(category: Category, intent: &Intent) -> bool
    ensures { IsTrue result ↔ MayHold category intent.now }
{
    holds(category, intent)
}

/// Whether a draft meets what `plan` requires of it: at most 64 intents, each of which passes
/// `may_hold`. For callers that make drafts themselves; an office tests each intent as it comes.
pub fn may_be_planned(draft: &Draft) -> bool
    ensures { IsTrue result
        ↔ ((length draft.now.intents ≤ 64) × All (MayHold draft.now.category) draft.now.intents) }
{
    draft.intents.len() <= MOST_INTENTS && may_hold_all(draft.category, draft.intents.as_slice())
}

/// Whether a draft of the category may hold each of the intents, as `may_hold` tests.
fn may_hold_all(category: Category, intents: &[Intent]) -> bool
    ensures { IsTrue result ↔ All (MayHold category) intents.now }
{
    intents.iter().all(|intent| may_hold(category, intent))
}
