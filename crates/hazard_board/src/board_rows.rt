//! The rows of a board, with those that may be live apart, so that live rows are found without a
//! walk over ended ones.
ghost use Rattle.std.specs.Prelude.{◌≡◌, ◌≤◌, ◌<◌, ◌+◌, [], length, IfOk, OnOk, OnErr};
ghost use Rattle.std.specs.List.Sorted.{IsStrictlySortedBy};
ghost use Rattle.event_life.specs.Products.{by_key, put, row_at};
ghost use Rattle.event_life.specs.Shown.{shown_at};
ghost use Rattle.hazard_board.specs.Board.{by_row_event, slice_of};

use crate::shelves::Shelves;
use hazard_types::{Event, Minute, Oom, Row, Zone};
use std::alloc::Global;
use std::marker::Model;

/// Ended rows are left out of `live` after memory was taken for half as many rows as were live, and
/// this many more.
const FEW: usize = 64;

/// If more rows than this are live, ended ones are not left out, since all that are left would be
/// put on one shelf.
const MANY: usize = 1024;

/// Rows by zone, then event, and those that may be live on shelves of their own too.
///
/// Source: docs/DECISIONS.md, "Plans".
#[derive(Drop)]
pub struct BoardRows {
    all: Shelves,
    // The rows that may be live, and some that have ended since.
    live: Shelves,
    // From this minute on all live rows are in `live`. `None` if that is not known.
    since: Option<Minute>,
    // The minute of the last product.
    last: Option<Minute>,
    // For how many more rows memory is taken before ended ones are left out of `live`.
    until: usize,
}

impl Model for BoardRows {
    ghost use Rattle.std.specs.List.Sorted.{IsStrictlySortedBy};
    ghost use Rattle.event_life.specs.Products.{by_key};
    ghost use Rattle.hazard_board.specs.Board.{Posted};
    ghost use Rattle.hazard_board.specs.Live.{AreLive};

    ghost Value = { Posted };

    ghost view = { λ b. record { rows = b.all.rows; spare = b.all.spare } };

    ghost invariant = { λ b.
        IsStrictlySortedBy by_key b.all.rows
        × IsStrictlySortedBy by_key b.live.rows
        × AreLive b.since b.all.rows b.live.rows };
}

impl BoardRows {
    /// Returns a `BoardRows` without rows and without capacity.
    pub fn new(alloc: Global) -> Self
        ensures { result.rows ≡ [] }
    {
        BoardRows {
            all: Shelves::new(alloc),
            live: Shelves::new(alloc),
            since: None,
            last: None,
            until: 0,
        }
    }

    /// Returns rows, by zone, then event, among which are all that are live at `t` (unended, with
    /// an end after `t`). They are the field `live` if that is known to hold these, else the field
    /// `all`; rows that are not live may be among them.
    fn source(&self, t: Minute) -> &Shelves
        ensures alike { shown_at t result.now.rows ≡ shown_at t self.now.rows }
        ensures order { IsStrictlySortedBy by_key result.now.rows }
    {
        match &self.since {
            Some(since) => {
                if since.get() <= t.get() {
                    &self.live
                } else {
                    &self.all
                }
            }
            None => &self.all,
        }
    }

    /// Returns the rows that are live at `t` (unended, with an end after `t`), by zone, then event.
    ///
    /// # Errors
    ///
    /// Out of memory.
    pub fn shown(&self, alloc: Global, t: Minute) -> Result<Vec<Row>, Oom>
        ensures { IfOk result (λ shown. shown.items ≡ shown_at t self.now.rows) }
    {
        self.source(t).shown(alloc, t)
    }

    /// Returns rows of zone `z`, by event, among which are all of the zone that are live at `t`
    /// (unended, with an end after `t`). Some rows that are not live may be among them.
    pub fn rows_in_zone_with_live(&self, z: &Zone, t: Minute) -> &[Row]
        ensures alike { shown_at t result.now ≡ shown_at t (slice_of z.now self.now.rows) }
        ensures order { IsStrictlySortedBy by_key result.now }
        ensures by_event { IsStrictlySortedBy by_row_event result.now }
    {
        self.source(t).slice_of(z)
    }

    /// Replaces the field `live` by the rows that are live at the last product's issue minute, if
    /// these are at most 1,024; else `live` stays. Before the first product it does nothing. `Err`
    /// is out of memory, and `live` is as before.
    fn renew(&mut self) -> Result<(), Oom>
        ensures rows { self.new.rows ≡ self.old.rows }
        ensures spare { self.new.spare ≡ self.old.spare }
    {
        let t = match &self.last {
            Some(t) => *t,
            None => return Ok(()),
        };
        let live = self.shown(self.all.allocator(), t)?;
        self.until = live.len() / 2 + FEW;
        if live.len() <= MANY {
            self.live = Shelves::from_rows(live);
            self.since = Some(t);
        }
        Ok(())
    }

    /// Reserves memory for `n` more rows in the field `live`. Before that it replaces `live` by the
    /// rows that are live at the last product's issue minute, unless these are more than 1,024, if
    /// the rows reserved since the last such step, `n` with them, have reached 64 plus half of
    /// those that were live then, or if a row has found no room in `live` since. It never fails: if
    /// memory runs out, `live` has less room, and a row that later finds none there makes it no
    /// longer known to hold all live rows.
    fn make_ready(&mut self, n: usize)
        ensures rows { self.new.rows ≡ self.old.rows }
        ensures spare { self.new.spare ≡ self.old.spare }
    {
        if n < self.until {
            self.until -= n;
        } else {
            let _done = self.renew();
        }
        let _done = self.live.reserve(n);
    }

    /// Takes memory for at least `n` more rows, whatever their zones are. No row changes.
    ///
    /// # Errors
    ///
    /// Out of memory.
    pub fn reserve(&mut self, n: usize) -> Result<(), Oom>
        ensures rows { self.new.rows ≡ self.old.rows }
        ensures spare { self.old.spare ≤ self.new.spare }
        ensures ok { OnOk result (n ≤ self.new.spare) }
        ensures err { OnErr result (self.old.spare < n) }
    {
        self.all.reserve(n)?;
        self.make_ready(n);
        Ok(())
    }

    /// Returns all rows of a zone, ended ones among them, by event; empty if there are none.
    pub fn slice_of(&self, z: &Zone) -> &[Row]
        ensures rows { result.now ≡ slice_of z.now self.now.rows }
        ensures order { IsStrictlySortedBy by_row_event result.now }
    {
        self.all.slice_of(z)
    }

    /// Returns the row of an event in a zone, ended or not, or `None` if there is none.
    pub fn row_at(&self, e: &Event, z: &Zone) -> Option<Row>
        ensures { result ≡ row_at self.now.rows e.now z.now }
    {
        self.all.row_at(e, z)
    }

    /// Inserts a row in the order by zone, then event, or replaces the row with its zone and event;
    /// `reserve` must have taken memory for it. If the field `live` has no room for the row, `live`
    /// is no longer known to have all live rows.
    pub fn put(&mut self, row: &Row)
        requires { length (put row.now self.old.rows) ≤ self.old.spare + length self.old.rows }
        ensures rows { self.new.rows ≡ put row.now self.old.rows }
        ensures spare { self.old.spare + length self.old.rows
            ≤ self.new.spare + length self.new.rows }
    {
        self.all.put(row);
        if !self.live.add_if_room(row) {
            self.since = None;
            self.until = 0;
        }
    }

    /// Sets the issue minute of the last product to `t`. No row changes.
    pub fn pass(&mut self, t: Minute)
        ensures rows { self.new.rows ≡ self.old.rows }
        ensures spare { self.new.spare ≡ self.old.spare }
    {
        self.last = Some(t);
    }
}
