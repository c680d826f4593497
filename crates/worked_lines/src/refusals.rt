//! An example of each refusal, by name.
use hazard_types::{Event, Hazard, Kind, List, Minute, Oom, Phen, Sig, Text, Zone};
use office_types::{Desk, Refusal};
use std::alloc::Global;

/// The values that the examples share.
#[derive(Clone, Copy)]
struct Named {
    zone: Zone,
    hazard: Hazard,
    owner: Desk,
    free_at: Minute,
}

impl Named {
    /// Returns the shared values: zone MDZ003, hazard WS.W, desk DESK9, and minute 10 since
    /// 2000-01-01 00:00 UTC. `None` only if one of them were not well formed.
    fn new() -> Option<Self> {
        let phen = Phen::new(*b"WS")?;
        Some(Named {
            zone: Zone::new(*b"MD", Kind::Z, 3)?,
            hazard: Hazard { phen, sig: Sig::W },
            owner: Desk::new(b"DESK9")?,
            free_at: Minute::new(10)?,
        })
    }

    /// Returns the event of hazard WS.W with the event tracking number `etn` in the year 2018.
    fn event(&self, etn: u16) -> Event {
        Event {
            hazard: self.hazard,
            etn,
            year: 2018,
        }
    }
}

/// Returns examples of the refusals of an HTTP call and of a request's text, desk, number or clock.
/// `field` is the field in the `WrongShape`.
fn of_calls(alloc: Global, field: Text) -> Result<Vec<Refusal>, Oom> {
    let last = 4_294_967_295;
    let refusals = vec![in alloc;
        Refusal::BadHead,
        Refusal::HeadTooLong,
        Refusal::NoRoute,
        Refusal::WrongMethod,
        Refusal::NoLength,
        Refusal::BodyTooLong,
        Refusal::LineTooLong,
        Refusal::NotJson,
        Refusal::WrongShape { field },
        Refusal::UnknownDesk,
        Refusal::Reused { last: 1 },
        Refusal::Stale { last },
        Refusal::Gap { last: 0 },
        Refusal::ClockOut { minute: -1 },
    ]?;
    Ok(refusals)
}

/// Returns examples of the refusals that concern a draft or its intents.
fn of_drafts(alloc: Global, named: &Named) -> Result<Vec<Refusal>, Oom> {
    let owner = named.owner;
    let free_at = named.free_at;
    let refusals = vec![in alloc;
        Refusal::NoDraft,
        Refusal::NotOwner { owner },
        Refusal::StillActive { free_at },
        Refusal::DraftsFull,
        Refusal::IntentsFull,
        Refusal::NoIntent { place: 1 },
        Refusal::EmptyDraft,
    ]?;
    Ok(refusals)
}

/// Returns examples of the refusals that concern a zone, a hazard, a category, a text or a product
/// that a request names. `field` is the field in the `BadText` and in the `TextTooLong`.
fn of_names(alloc: Global, named: &Named, field: Text) -> Result<Vec<Refusal>, Oom> {
    let zone = named.zone;
    let long = field.clone()?;
    let refusals = vec![in alloc;
        Refusal::UnknownZone { zone },
        Refusal::UnknownHazard,
        Refusal::WrongZoneKind { zone },
        Refusal::WrongCategory,
        Refusal::BadText { field, at: 7 },
        Refusal::TextTooLong { field: long },
        Refusal::BadZoneList,
        Refusal::NoProduct,
    ]?;
    Ok(refusals)
}

/// Returns examples of the refusals that concern an event of a product.
fn of_events(alloc: Global, named: &Named) -> Result<Vec<Refusal>, Oom> {
    let zone = named.zone;
    let none = named.event(1);
    let not_live = named.event(12);
    let left = named.event(123);
    let twice = named.event(0);
    let begun = named.event(9999);
    let site = named.event(1);
    let held = named.event(1);
    let refusals = vec![in alloc;
        Refusal::NoEvent { event: none },
        Refusal::NotLive {
            event: not_live,
            zone
        },
        Refusal::LeftBefore { event: left, zone },
        Refusal::Twice { event: twice, zone },
        Refusal::BegunMoved { event: begun, zone },
        Refusal::SiteMoved { event: site },
        Refusal::NumberHeld { event: held },
    ]?;
    Ok(refusals)
}

/// Returns examples of all other refusals of a product.
fn of_products(alloc: Global, named: &Named) -> Result<Vec<Refusal>, Oom> {
    let zone = named.zone;
    let hazard = named.hazard;
    let first = named.event(9999);
    let second = named.event(10_000);
    let refusals = vec![in alloc;
        Refusal::BadPeriod { place: 0 },
        Refusal::NoOpenEnd { place: 1 },
        Refusal::FloodNeeded { place: 2 },
        Refusal::FloodBarred { place: 63 },
        Refusal::Conflict {
            zone,
            first,
            second
        },
        Refusal::NumbersSpent { hazard },
        Refusal::NotLast { last: 2 },
        Refusal::NothingToCorrect,
        Refusal::LettersSpent,
        Refusal::TooManyLines { lines: 2001 },
        Refusal::TooLong { bytes: 65_537 },
        Refusal::ProductsFull,
        Refusal::JournalFull,
    ]?;
    Ok(refusals)
}

/// Returns the first of the refusals whose name is `name`, such as `NoProduct`, or `None` if there
/// is none.
fn named_among(refusals: Vec<Refusal>, name: &str) -> Option<Refusal> {
    for refusal in refusals {
        if refusal.label().1 == name {
            return Some(refusal);
        }
    }
    None
}

/// Returns the example of the refusal with this name, such as `NoProduct`, or `None` if there is no
/// such name. The field in a `WrongShape` is `?`, the one in a `BadText` or `TextTooLong` is
/// `what`.
///
/// # Errors
///
/// Out of memory.
pub fn refusal_named(alloc: Global, name: &str) -> Result<Option<Refusal>, Oom> {
    let Some(named) = Named::new() else {
        return Ok(None);
    };
    let field = List::from_slice(alloc, b"?")?;
    let text = List::from_slice(alloc, b"what")?;
    let groups = [
        of_calls(alloc, field)?,
        of_names(alloc, &named, text)?,
        of_drafts(alloc, &named)?,
        of_events(alloc, &named)?,
        of_products(alloc, &named)?,
    ];
    for group in groups {
        let found = named_among(group, name);
        if found.is_some() {
            return Ok(found);
        }
    }
    Ok(None)
}
