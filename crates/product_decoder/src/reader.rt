//! The reader of the products of an office and class.
ghost use Rattle.std.specs.Prelude.{◌≡◌, ◌↔◌, ◌<◌, ◌++◌, ◌∷◌, [], length, IfOk, OnOk, OnErr};
ghost use Rattle.std.specs.List.{flat_map};
ghost use Rattle.std.specs.List.Sorted.{IsStrictlySortedBy};
ghost use Rattle.hazard_types.specs.Places.{Place};
ghost use Rattle.hazard_types.specs.declared.hazard.Event.{Event as EventValue};
ghost use Rattle.event_life.specs.Lives.{IsLawfulLife, judged_product};
ghost use Rattle.event_life.specs.Openings.{IsGapless, opened_of};
ghost use Rattle.event_life.specs.Products.{rows_of};
ghost use Rattle.event_life.specs.Shown.{shown_at};
ghost use Rattle.product_decoder.specs.Decoded.{decoded_of};
ghost use Rattle.product_decoder.specs.Lives.{by_life};
ghost use Rattle.product_decoder.specs.ReaderModel.{product_of, lives_of, found_of, gaps_found};
ghost use Rattle.product_decoder.specs.Takings.{product_judged};
ghost use Rattle.row_index.specs.Verdicts.{expand, AreApart, AreFound};

use crate::findings::{breaches_in, gaps_in};
use crate::frame_lines::judged_by_frame;
use crate::taken::{Taken, judged_lines, rows_taken};
use crate::tracks::{EventLives, events_in, tracks_in};
use crate::types::{Decoded, Found, GapFound, Track};
use hazard_types::{Class, List, Minute, Oom, Row};
use product_frame::Frame;
use row_index::{RowIndex, Run};
use std::alloc::Global;
use std::marker::Model;
use std::mem;

/// Takes the products of an office in order, and of each the lines of the office and class. What it
/// returns depends on the list of products that it took alone. After an `Oom` the rows are made
/// again at the next call that needs them.
#[derive(Drop)]
pub struct Reader {
    office: [u8; 4],
    class: Class,
    /// The rows after the products, or `None` after a call that ran out of memory.
    rows: Option<RowIndex>,
    pub(crate) taken: List<Taken>,
}

impl Model for Reader {
    ghost use Rattle.product_decoder.specs.ReaderModel.{Reading};
    ghost use Rattle.product_decoder.specs.Takings.{products_taken, IsRead};

    ghost Value = { Reading };

    ghost view = { λ r. record { office = r.office; class = r.class; products = products_taken r.office r.class r.taken } };

    ghost invariant = { λ r. IsRead r.office r.class r.rows r.taken };
}

impl Reader {
    /// Returns a reader of an office and class that has taken no product.
    pub fn new(alloc: Global, office: [u8; 4], class: Class) -> Self
        ensures office { result.office ≡ office }
        ensures class { result.class ≡ class }
        ensures products { result.products ≡ [] }
    {
        Reader {
            office,
            class,
            rows: Some(RowIndex::new(alloc)),
            taken: List::new(alloc),
        }
    }

    /// Returns the rows that the products taken so far leave, and takes them out of the reader. If
    /// it has none, after a call that ran out of memory, they are made again from the products.
    /// `Err` is out of memory.
    fn rows_before(&mut self, alloc: Global) -> Result<RowIndex, Oom>
        ensures unchanged { self.new ≡ self.old }
        ensures rows { IfOk result (λ rows. rows ≡ rows_of self.old.products) }
    {
        match mem::replace(&mut self.rows, None) {
            Some(rows) => Ok(rows),
            None => rows_taken(alloc, self.taken.as_slice()),
        }
    }

    /// Adds a product with this issue minute to those taken, and keeps the rows after it. `rows`
    /// are the rows before it, and `runs` its lines of the office and class, judged by them. `Err`
    /// is out of memory, and the products taken are as before.
    fn keep(
        &mut self,
        alloc: Global,
        rows: RowIndex,
        issue: Minute,
        runs: List<Run>,
    ) -> Result<(), Oom>
        requires rows { rows ≡ rows_of self.old.products }
        requires few { length self.old.products < 4294967295 }
        requires judged { expand runs ≡ judged_product rows
            (product_judged self.old.office self.old.class issue (expand runs)) }
        requires found { AreFound rows runs }
        requires apart { AreApart runs }
        ensures office { self.new.office ≡ self.old.office }
        ensures class { self.new.class ≡ self.old.class }
        ensures ok { OnOk result (self.new.products ≡ self.old.products
            ++ product_judged self.old.office self.old.class issue (expand runs) ∷ []) }
        ensures err { OnErr result (self.new.products ≡ self.old.products) }
    {
        let after = rows.leave_runs(alloc, issue, runs.as_slice())?;
        let taken = Taken::new(issue, runs);
        self.taken.push(taken)?;
        self.rows = Some(after);
        Ok(())
    }

    /// Adds a product to those taken, which it follows: its lines are judged by the rows that they
    /// left, and change these. Lines of another office or class are passed over. At most
    /// 4,294,967,295 products may be taken.
    ///
    /// # Errors
    ///
    /// Out of memory; the products that were taken are as before.
    pub fn take(&mut self, alloc: Global, d: &Decoded) -> Result<(), Oom>
        requires { length self.old.products < 4294967295 }
        ensures office { self.new.office ≡ self.old.office }
        ensures class { self.new.class ≡ self.old.class }
        ensures ok { OnOk result (self.new.products
            ≡ self.old.products ++ product_of self.old.office self.old.class d.now ∷ []) }
        ensures err { OnErr result (self.new.products ≡ self.old.products) }
    {
        let rows = self.rows_before(alloc)?;
        let runs = judged_lines(alloc, &self.office, &self.class, &rows, d)?;
        self.keep(alloc, rows, d.issue, runs)
    }

    /// Adds a product, given by its frame, to those taken, which it follows: its lines are judged
    /// by the rows that they left, and change these. Lines of another office or class are passed
    /// over. At most 4,294,967,295 products may be taken.
    ///
    /// # Errors
    ///
    /// Out of memory; the products that were taken are as before.
    pub fn take_frame(&mut self, alloc: Global, frame: &Frame) -> Result<(), Oom>
        requires { length self.old.products < 4294967295 }
        ensures office { self.new.office ≡ self.old.office }
        ensures class { self.new.class ≡ self.old.class }
        ensures ok { OnOk result (self.new.products ≡ self.old.products
            ++ product_of self.old.office self.old.class (decoded_of frame.now) ∷ []) }
        ensures err { OnErr result (self.new.products ≡ self.old.products) }
    {
        let rows = self.rows_before(alloc)?;
        let runs = judged_by_frame(alloc, &self.office, &self.class, &rows, frame)?;
        self.keep(alloc, rows, frame.issue, runs)
    }

    /// Returns the rows that the products leave live at `t`, by zone, then event: no line has ended
    /// them, and their end is after `t` or until further notice.
    ///
    /// # Errors
    ///
    /// Out of memory.
    pub fn shown(&self, alloc: Global, t: Minute) -> Result<List<Row>, Oom>
        ensures { IfOk result (λ rows. rows ≡ shown_at t (rows_of self.now.products)) }
    {
        match &self.rows {
            Some(rows) => rows.shown(alloc, t),
            None => rows_taken(alloc, self.taken.as_slice())?.shown(alloc, t),
        }
    }

    /// Returns the life of each row, by event, then zone: the action and issue minute of each
    /// lawful line other than ROU of the event in the zone, in the order of the products.
    ///
    /// # Errors
    ///
    /// Out of memory.
    pub fn lives(&self, alloc: Global) -> Result<List<Track>, Oom>
        ensures value { IfOk result (λ tracks. tracks ≡ lives_of self.now.products) }
        ensures sorted { IfOk result (λ tracks. IsStrictlySortedBy by_life tracks) }
    {
        tracks_in(alloc, self.taken.as_slice())
    }

    /// Returns, in the order of the events, the lives of each event in its zones, by zone. A life
    /// has the action and issue minute of each lawful line other than ROU of the event in the zone,
    /// in the order of the products.
    ///
    /// # Errors
    ///
    /// Out of memory.
    pub fn lives_by_event(&self, alloc: Global) -> Result<List<EventLives>, Oom>
        ensures value { IfOk result
            (λ events. flat_map (λ e. e) events ≡ lives_of self.now.products) }
    {
        events_in(alloc, self.taken.as_slice())
    }

    /// Returns the lines in breach, product by product, and within one in the order of the text.
    ///
    /// # Errors
    ///
    /// Out of memory.
    ///
    /// Source: docs/ARCHIVE.md, "The lines".
    pub fn breaches(&self, alloc: Global) -> Result<List<Found>, Oom>
        ensures value { IfOk result (λ found. found ≡ found_of self.now.products) }
        // There is none exactly if each life is lawful.
        ensures lawful { (found_of self.now.products ≡ [])
            ↔ ((e : EventValue) (z : Place) → IsLawfulLife self.now.products e z) }
    {
        breaches_in(alloc, self.taken.as_slice())
    }

    /// Returns the events that were opened with a number other than the next one of their hazard
    /// and year, each with both numbers. They are product by product, and within one by hazard,
    /// number and year.
    ///
    /// # Errors
    ///
    /// Out of memory.
    ///
    /// Source: NWS Instruction 10-1703, P-VTEC event tracking numbers; docs/DECISIONS.md, "Lives".
    pub fn gaps(&self, alloc: Global) -> Result<List<GapFound>, Oom>
        ensures value { IfOk result (λ gaps. gaps ≡ gaps_found self.now.products) }
        // There is none exactly if the numbers of each hazard and year are 1, 2, .., k in the order
        // of opening.
        ensures gapless { (gaps_found self.now.products ≡ [])
            ↔ IsGapless (opened_of self.now.products) }
    {
        gaps_in(alloc, self.taken.as_slice())
    }
}
