//! The rules on the parts of a request (docs/REQUESTS.md, "Drafts and the parts of a request").
ghost use Rattle.std.specs.Prelude.{◌≡◌, ◌+◌, IfOk, find, option_map, true};
ghost use Rattle.std.specs.List.Sorted.{IsStrictlySortedBy};
ghost use Rattle.std.specs.Map.{keys_of};
ghost use Rattle.std.specs.Option.{unwrap_or};
ghost use Rattle.hazard_types.specs.Hazards.{facts_of};
ghost use Rattle.hazard_types.specs.Places.{by_place};
ghost use Rattle.action_planner.specs.Fitting.{is_valid_zone_list, opens_with};
ghost use Rattle.action_planner.specs.Lines.{follows};
ghost use Rattle.action_planner.specs.Placed.{zones_of};
ghost use Rattle.office_core.specs.Requests.{draft_of, hazard_of, hazard_of_target, intent_of};
ghost use Rattle.office_core.specs.Rules.{is_unknown_zone, unknown_zone, unknown_hazard, wrong_kind, is_of_category_by, is_of_category, wrong_category, bad_zones, no_product, found_draft, broken_part};
ghost use Rattle.office_core.specs.State.{product_in, product_at};

use crate::office::Office;
use crate::writing::{TextRule, first_text};
use desk_settings::Settings;
use hazard_types::desk_hazards::facts;
use hazard_types::{Category, Hazard, List, Oom, Zone};
use office_types::{Draft, Refusal, Request, Sent, Target};
use std::alloc::Global;

/// Returns the hazard of a put's target: that of a new event, or of the open event that is joined.
fn hazard_of_target(target: &Target) -> Hazard
    ensures { result ≡ hazard_of_target target.now }
{
    match target {
        Target::Fresh(hazard) => *hazard,
        Target::Join(event) => event.hazard,
    }
}

/// Returns the hazard of the intent that a request has, or `None` if it has no intent.
fn hazard_in(r: &Request) -> Option<Hazard>
    ensures { result ≡ option_map hazard_of (intent_of r.now) }
{
    match r {
        Request::Issue(part) => Some(hazard_of_target(&part.target)),
        Request::Put(_, part) => Some(hazard_of_target(&part.target)),
        Request::Finish(_, part) => Some(part.event.hazard),
        Request::Restate(_, part) => Some(part.event.hazard),
        Request::Routine(_, part) => Some(part.hazard),
        _ => None,
    }
}

/// Returns the zones of the intent that a request has, or `None` if it has no intent.
fn zones_in(r: &Request) -> Option<&List<Zone>>
    ensures { option_map (λ zones. zones.now) result ≡ option_map zones_of (intent_of r.now) }
{
    match r {
        Request::Issue(part) => Some(&part.zones),
        Request::Put(_, part) => Some(&part.zones),
        Request::Finish(_, part) => Some(&part.zones),
        Request::Restate(_, part) => Some(&part.zones),
        Request::Routine(_, part) => Some(&part.zones),
        _ => None,
    }
}

/// Whether the settings neither have the zone nor allow every zone.
fn is_unknown_zone(settings: &Settings, zone: &Zone) -> bool
    requires { IsStrictlySortedBy by_place (keys_of settings.now.zones) }
    ensures { result ≡ is_unknown_zone settings.now zone.now }
{
    !settings.any_zone && settings.zone_name(zone).is_none()
}

/// Returns the first of `zones` that the settings neither have nor allow, or `None` if there is
/// none.
fn first_unknown(settings: &Settings, zones: &[Zone]) -> Option<Zone>
    requires { IsStrictlySortedBy by_place (keys_of settings.now.zones) }
    ensures { result ≡ find (is_unknown_zone settings.now) zones.now }
{
    for zone in zones {
        if is_unknown_zone(settings, zone) {
            return Some(*zone);
        }
    }
    None
}

/// Returns `UnknownZone` with the first zone of the request's intent that the settings neither have
/// nor allow, or `None` if there is none.
fn unknown_zone(settings: &Settings, r: &Request) -> Option<Refusal>
    requires { IsStrictlySortedBy by_place (keys_of settings.now.zones) }
    ensures { result ≡ unknown_zone settings.now (intent_of r.now) }
{
    let zone = first_unknown(settings, zones_in(r)?.as_slice())?;
    Some(Refusal::UnknownZone { zone })
}

/// Returns `UnknownHazard` if the hazard of the request's intent is not one that the desk issues,
/// or `None` otherwise.
fn unknown_hazard(r: &Request) -> Option<Refusal>
    ensures { result ≡ unknown_hazard (intent_of r.now) }
{
    let hazard = hazard_in(r)?;
    if facts(hazard).is_none() {
        Some(Refusal::UnknownHazard)
    } else {
        None
    }
}

/// Returns `WrongZoneKind` with the first zone of the request's intent that is not of the kind,
/// county or public zone, that the intent's hazard has, or `None` if there is none.
fn wrong_kind(r: &Request) -> Option<Refusal>
    ensures { result ≡ wrong_kind (intent_of r.now) }
{
    let hazard = hazard_in(r)?;
    let zone = action_planner::wrong_kind(&hazard, zones_in(r)?.as_slice())?;
    Some(Refusal::WrongZoneKind { zone })
}

/// Whether products of the category open events of the hazard. No category does for a hazard that
/// the desk does not issue.
fn opens_with(category: Category, hazard: &Hazard) -> bool
    ensures { result ≡ opens_with category (facts_of hazard.now) }
{
    match facts(*hazard) {
        Some(known) => known.opens == category,
        None => false,
    }
}

/// Whether products of the category continue, change and end events of the hazard. No category does
/// for a hazard that the desk does not issue.
fn follows(category: Category, hazard: &Hazard) -> bool
    ensures { result ≡ follows category (facts_of hazard.now) }
{
    match facts(*hazard) {
        Some(known) => known.follows == category,
        None => false,
    }
}

/// Whether an intent with this target may be in a product of the category. For a new event, the
/// category must be the one whose products open events of the hazard; for an open event that is
/// joined, the one whose products continue, change and end events of its hazard.
fn is_of_category_by(category: Category, target: &Target) -> bool
    ensures { result ≡ is_of_category_by category target.now }
{
    match target {
        Target::Fresh(hazard) => opens_with(category, hazard),
        Target::Join(event) => follows(category, &event.hazard),
    }
}

/// Whether the intent that a request has may be in a product of the category; `true` if the request
/// has no intent. An intent for a new event needs the category whose products open events of its
/// hazard, and any other intent the one whose products continue, change and end them.
fn is_of_category(category: Category, r: &Request) -> bool
    ensures { result ≡ unwrap_or (option_map (is_of_category category) (intent_of r.now)) true }
{
    match r {
        Request::Issue(part) => is_of_category_by(category, &part.target),
        Request::Put(_, part) => is_of_category_by(category, &part.target),
        Request::Finish(_, part) => follows(category, &part.event.hazard),
        Request::Restate(_, part) => follows(category, &part.event.hazard),
        Request::Routine(_, part) => follows(category, &part.hazard),
        _ => true,
    }
}

/// Returns `WrongCategory` if the draft `found` has another category than the request's intent
/// needs, or `None` otherwise, also without an intent or a draft. An intent for a new event needs
/// the category whose products open events of its hazard, and any other intent the one whose
/// products continue, change and end them. `found` is the open draft that the request names.
fn wrong_category(r: &Request, found: Option<&Draft>) -> Option<Refusal>
    ensures { result ≡ wrong_category (intent_of r.now) (option_map (λ d. d.now) found.entry) }
{
    match found {
        Some(draft) => {
            if is_of_category(draft.category, r) {
                None
            } else {
                Some(Refusal::WrongCategory)
            }
        }
        None => None,
    }
}

/// Whether there are 1 to 600 zones, each once.
fn is_valid_zone_list(zones: &[Zone]) -> bool
    ensures { result ≡ is_valid_zone_list zones.now }
{
    action_planner::is_valid_zone_list(zones)
}

/// Returns `BadZoneList` if the request's intent has no zone, more than 600, or one of them twice,
/// or `None` otherwise.
fn bad_zones(r: &Request) -> Option<Refusal>
    ensures { result ≡ bad_zones (intent_of r.now) }
{
    let zones = zones_in(r)?;
    if is_valid_zone_list(zones.as_slice()) {
        None
    } else {
        Some(Refusal::BadZoneList)
    }
}

/// Returns the product with this number, or `None` if there is none. `products` are all that were
/// sent, in order, and have the numbers 1, 2 and so on.
fn product_in(products: &[Sent], number: usize) -> Option<&Sent>
    ensures { option_map (λ sent. sent.now) result ≡ product_in products.now number }
{
    if number == 0 {
        None
    } else {
        products.get(number - 1)
    }
}

impl Office {
    /// Returns the office's product with this number, counted from 1, or `None` if there is none.
    pub(crate) fn product_at(&self, number: u32) -> Option<&Sent>
        ensures { option_map (λ sent. sent.now) result ≡ product_at self.now.state number }
    {
        product_in(&self.products, number as usize)
    }

    /// Returns the office's product with number `number + 1`, or `None` if there is none. Products
    /// are numbered from 1 in the order in which they were sent.
    pub(crate) fn product_after(&self, number: u32) -> Option<&Sent>
        ensures { option_map (λ sent. sent.now) result ≡ product_at self.now.state (number + 1) }
    {
        product_in(&self.products, number as usize + 1)
    }

    /// Returns `NoProduct` if the request is a correction and no product has the number that it
    /// names, or `None` otherwise.
    fn no_product(&self, r: &Request) -> Option<Refusal>
        ensures { result ≡ no_product self.now.state r.now }
    {
        match r {
            Request::Correct(number, _) => {
                if self.product_at(*number).is_none() {
                    Some(Refusal::NoProduct)
                } else {
                    None
                }
            }
            _ => None,
        }
    }

    /// Returns the refusal for the first rule that a request breaks on its zones, its hazard, its
    /// texts, or the number of the product that it corrects, or `None` if it breaks none of them.
    /// The rules come in the order UnknownZone, UnknownHazard, WrongZoneKind, WrongCategory,
    /// BadText, TextTooLong, BadZoneList, NoProduct.
    #[tactic(auto, unfolding(crate::specs::Rules::broken_part))]
    pub(crate) fn broken_part(&self, alloc: Global, r: &Request) -> Result<Option<Refusal>, Oom>
        ensures { IfOk result (λ refused. refused
            ≡ broken_part self.now.state r.now (found_draft self.now.state (draft_of r.now))) }
    {
        let zone = unknown_zone(&self.settings, r);
        if zone.is_some() {
            return Ok(zone);
        }
        let hazard = unknown_hazard(r);
        if hazard.is_some() {
            return Ok(hazard);
        }
        let kind = wrong_kind(r);
        if kind.is_some() {
            return Ok(kind);
        }
        let category = wrong_category(r, self.found_draft(r));
        if category.is_some() {
            return Ok(category);
        }
        let bad = first_text(alloc, TextRule::Printable, r)?;
        if bad.is_some() {
            return Ok(bad);
        }
        let long = first_text(alloc, TextRule::Short, r)?;
        if long.is_some() {
            return Ok(long);
        }
        let zones = bad_zones(r);
        if zones.is_some() {
            return Ok(zones);
        }
        Ok(self.no_product(r))
    }
}
