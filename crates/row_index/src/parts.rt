//! Events as keys, compared part by part.
ghost use Rattle.std.specs.Prelude.{◌≡◌};
ghost use Rattle.std.specs.Cmp.{po};
ghost use Rattle.std.specs.Cmp.Rules.{comparing};
ghost use Rattle.std.specs.Ordering.{as_partial_cmp};
ghost use Rattle.std.proofs.Common.{rules};
ghost use Rattle.hazard_types.specs.Orders.{by_event};
ghost use Rattle.hazard_types.specs.contracts.hazard.EventOrd.TheImpl.Laws as event_laws;

use hazard_types::Event;
use std::cmp::Ordering;
use std::marker::Model;

/// Compares events by hazard, number and year.
fn event_order(a: &Event, b: &Event) -> Ordering
    ensures { result ≡ by_event a.now b.now }
{
    match a.hazard.cmp(&b.hazard) {
        Ordering::Equal => {
            if a.etn == b.etn {
                a.year.cmp(&b.year)
            } else {
                a.etn.cmp(&b.etn)
            }
        }
        order => order,
    }
}

/// An event as a key, ordered by hazard, number and year.
#[derive(Clone, Copy, PartialEq, Eq)]
pub struct EventKey {
    pub event: Event,
}

impl Model for EventKey {
    ghost use Rattle.hazard_types.specs.declared.hazard.Event.{Event};

    ghost Value = { Event };

    ghost view = { λ k. k.event };

    ghost inverse = { λ e. record { event = e } };
}

impl Ord for EventKey {
    ghost cmp = { by_event };

    ghost total = { event_laws.total-law };

    ghost matches_partial_cmp = { Prim.search (comparing, rules) };

    ghost matches_eq = { event_laws.matches_eq-law };

    fn cmp(&self, other: &EventKey) -> Ordering {
        event_order(&self.event, &other.event)
    }
}

impl PartialOrd for EventKey {
    ghost partial_cmp = { as_partial_cmp by_event };

    ghost laws = { po event_laws.total-law event_laws.matches_eq-law };

    fn partial_cmp(&self, other: &EventKey) -> Option<Ordering> {
        Some(self.cmp(other))
    }
}
