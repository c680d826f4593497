//! How many events have rows, by hazard.
ghost use Rattle.std.specs.Prelude.{◌≡◌, [], fold, IfOk, OnOk};
ghost use Rattle.std.specs.Map.{keys_of};
ghost use Rattle.hazard_types.specs.Orders.{by_hazard};
ghost use Rattle.stats_report.specs.Adding.{sum_at, with_event};

use crate::standing::Spells;
use crate::sums::checked_sum;
use hazard_types::{Event, Hazard, Oom};
use std::alloc::Global;
use std::collections::BTreeMap;

/// The count of events of each hazard.
pub type Events = BTreeMap<Hazard, u128>;

/// Returns the count that `events` has for a hazard; 0 if it has none.
pub fn events_of(events: &Events, hazard: &Hazard) -> u128
    ensures { result ≡ sum_at by_hazard events.now.entries hazard.now }
{
    match events.get(hazard) {
        Some(count) => *count,
        None => 0,
    }
}

/// Adds one to the count of the event's hazard.
fn add_event(events: &mut Events, event: &Event) -> Result<(), Oom>
    ensures { OnOk result (events.new.entries ≡ with_event events.old.entries event.now) }
{
    let hazard = event.hazard;
    let count = checked_sum(events_of(events, &hazard), 1)?;
    events.insert(hazard, count)?;
    Ok(())
}

/// Returns, for each hazard, how many of its events have rows. `spells` has the spells of the rows
/// of each event that has one.
///
/// # Errors
///
/// Out of memory.
pub fn events_by_hazard(alloc: Global, spells: &Spells) -> Result<Events, Oom>
    ensures { IfOk result (λ events.
        events.entries ≡ fold with_event [] (keys_of spells.now.entries)) }
{
    let mut events = BTreeMap::new(alloc);
    for key in spells.keys() {
        add_event(&mut events, &key.event)?;
    }
    Ok(events)
}
