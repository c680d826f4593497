//! The rows of one event by zone, which share equal lives.
ghost use Rattle.std.specs.Prelude.{◌≡◌, Bool, [], length, option_map, slice_get, IfOk, OnOk};
ghost use Rattle.std.specs.Map.{values_of};
ghost use Rattle.event_life.specs.Products.{life_of, row_at};
ghost use Rattle.event_life.specs.declared.life.Life.{Life as LifeValue};
ghost use Rattle.row_index.specs.Sharing.{rows_put};
ghost use Rattle.row_index.specs.Tallies.{AreTallied};
ghost use Rattle.row_index.specs.Zoning.{AreOf, is_first_of};

use crate::lives::LifeMap;
use crate::standing::Before;
use event_life::Life;
use hazard_types::{Event, Oom, Row, Zone};
use std::alloc::Global;
use std::marker::Model;

/// The rows of one event by zone. Zones whose rows have the same life share it.
#[derive(Drop)]
pub struct SharedRows {
    event: Option<Event>,
    lives: LifeMap,
}

impl Model for SharedRows {
    ghost use Rattle.std.specs.Prelude.{List as Seq};
    ghost use Rattle.hazard_types.specs.Places.{Place};
    ghost use Rattle.hazard_types.specs.declared.line.Row.{Row};
    ghost use Rattle.row_index.specs.Sharing.{rows_told, HaveEvent};

    ghost Value = { Seq (Place × Row) };

    ghost view = { λ m. rows_told m.event m.lives };

    ghost invariant = { λ m. HaveEvent m.event m.lives };
}

impl SharedRows {
    /// Returns a map without rows.
    pub fn new(alloc: Global) -> Self
        ensures { result ≡ [] }
    {
        SharedRows {
            event: None,
            lives: LifeMap::new(alloc),
        }
    }

    /// Returns the life of the row of an event in a zone, or `None` if there is none. `near` is a
    /// guess of the zone's index among the zones in order, and may become the index after it; a
    /// wrong guess only costs time.
    pub fn life_at(&self, near: &mut usize, event: &Event, zone: &Zone) -> Option<&Life>
        ensures { option_map (λ life. life.now) result
            ≡ option_map life_of (row_at (values_of self.now) event.now zone.now) }
    {
        match &self.event {
            Some(own) => {
                if *own == *event {
                    self.lives.get(near, zone)
                } else {
                    None
                }
            }
            None => None,
        }
    }

    /// Whether there are rows and they are of `event`.
    pub fn is_of(&self, event: &Event) -> bool
        ensures { result ≡ is_first_of (option_map (λ e. e.1) (slice_get self.now 0)) event.now }
    {
        match &self.event {
            Some(own) => self.lives.has_any_zone() && *own == *event,
            None => false,
        }
    }

    /// Returns the number of rows, which is a hint alone: no contract promises that it is right.
    pub fn count(&self) -> usize {
        self.lives.count()
    }

    /// Returns the rows by zone.
    ///
    /// # Errors
    ///
    /// Out of memory.
    pub fn values(&self, alloc: Global) -> Result<Vec<Row>, Oom>
        ensures { IfOk result (λ values. values.items ≡ values_of self.now) }
    {
        match &self.event {
            Some(event) => self.lives.rows(alloc, event),
            None => Ok(Vec::new(alloc)),
        }
    }

    /// Sets a row of `event` with `life` in each of the zones, and returns the lives that these
    /// zones had, `None` for no row, each with the count of zones in succession that had it. All
    /// rows in the map must be of `event`. On `Oom` rows may be lost.
    ///
    /// # Errors
    ///
    /// Out of memory.
    pub fn set(
        &mut self,
        alloc: Global,
        event: &Event,
        life: &Life,
        zones: &[Zone],
    ) -> Result<Vec<Before>, Oom>
        requires { AreOf event.now (values_of self.old) }
        ensures set { OnOk result (self.new ≡ rows_put event.now life.now zones.now self.old) }
        ensures before { IfOk result (λ befores. (p : LifeValue → Bool) →
            AreTallied p (values_of self.old) (values_of self.new) befores.items
            (length zones.now) life.now) }
    {
        self.event = Some(*event);
        self.lives.compact(alloc, event)?;
        self.lives.add_each(alloc, life, zones)
    }

    /// Drops all rows.
    pub fn clear(&mut self)
        ensures { self.new ≡ [] }
    {
        self.event = None;
        self.lives.clear();
    }
}
