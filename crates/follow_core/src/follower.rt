//! The follower of an office's products.
ghost use Rattle.std.specs.Prelude.{◌≡◌, ◌≢◌, ◌≤◌, ◌<◌, ◌++◌, ◌∷◌, List as Seq, [], Ok, Some, IfOk, OnOk, OnErr};
ghost use Rattle.hazard_types.specs.Given.{Gives};
ghost use Rattle.event_life.specs.Lives.{judged_product};
ghost use Rattle.event_life.specs.Products.{rows_of};
ghost use Rattle.event_life.specs.Shown.{shown_at};
ghost use Rattle.product_decoder.specs.Decoded.{decoded_of};
ghost use Rattle.product_decoder.specs.ReaderModel.{product_of};
ghost use Rattle.row_index.specs.Verdicts.{expand, AreApart, AreFound};
ghost use Rattle.follow_core.specs.Hearing.{place_of, answer_to, having_taken};
ghost use Rattle.follow_core.specs.Schedule.{Event, Delivered, run, begun, answer_at, HasLostNothing};

use hazard_types::{Class, List, Minute, Oom, Or, Row};
use product_decoder::judged_by_frame;
use product_frame::{Frame, FrameFault, read_frame};
use row_index::{RowIndex, Run};
use std::alloc::Global;
use std::marker::Model;
use std::snapshot::Snapshot;

/// What became of a text.
#[derive(Clone, Copy, Debug, PartialEq, Eq)]
pub enum Heard {
    /// It answers the question after another place than the follower's, and was not taken.
    Old,
    /// It was taken.
    New,
}

/// Takes the products of an office in order, each once, whatever answers are late, lost or
/// repeated. It keeps the rows after them and no lines; which products it took is known to
/// contracts alone. If memory runs out while a product is added, the rows are lost: from then on no
/// text is taken, and `shown` is out of memory.
///
/// Source: docs/FOLLOWING.md, "Nothing is lost".
#[derive(Drop)]
pub struct Follower {
    office: [u8; 4],
    class: Class,
    /// The rows after the products, or `None` once they were lost.
    rows: Option<RowIndex>,
    /// The frames that were taken, for contracts alone: they have no bytes.
    heard: Vec<Snapshot<Frame>>,
    /// How many products were taken.
    place: u32,
}

impl Model for Follower {
    ghost use Rattle.std.specs.Prelude.{◌≡◌, length};
    ghost use Rattle.product_decoder.specs.ReaderModel.{Reading};
    ghost use Rattle.product_decoder.specs.Takings.{AreLeft};
    ghost use Rattle.follow_core.specs.Frames.{products_taken};

    ghost Value = { Reading };

    ghost view = { λ f. record {
      office = f.office;
      class = f.class;
      products = products_taken f.office f.class f.heard.items;
    } };

    ghost invariant = { λ f. (f.place ≡ length (products_taken f.office f.class f.heard.items))
        × AreLeft f.rows (products_taken f.office f.class f.heard.items) };
}

impl Follower {
    /// Returns a follower of the products of an office, such as `KLWX`, that has taken none yet. Of
    /// each product it will use only the lines of this office and class.
    pub fn new(alloc: Global, office: [u8; 4], class: Class) -> Self
        ensures office { result.office ≡ office }
        ensures class { result.class ≡ class }
        ensures products { result.products ≡ [] }
    {
        Follower {
            office,
            class,
            rows: Some(RowIndex::new(alloc)),
            heard: Vec::new(alloc),
            place: 0,
        }
    }

    /// Returns the follower's place: how many products it has taken. The next one to ask the office
    /// for is the product after this place.
    pub fn place(&self) -> u32
        ensures { result ≡ place_of self.now }
    {
        self.place
    }

    /// Adds the product of `frame` to those that were taken, and replaces the rows by the rows
    /// after it. `judged` is what `judged_by_frame` returns for `frame` and the rows before the
    /// product; fewer than 8,192 products may have been taken. It errs if memory runs out or the
    /// rows were lost before; then the product is not taken, and the rows may be lost.
    fn keep(&mut self, alloc: Global, frame: &Frame, judged: &[Run]) -> Result<(), Oom>
        requires few { place_of self.old < 8192 }
        requires judged { expand judged.now ≡ judged_product (rows_of self.old.products)
            (product_of self.old.office self.old.class (decoded_of frame.now)) }
        requires found { AreFound (rows_of self.old.products) judged.now }
        requires apart { AreApart judged.now }
        ensures office { self.new.office ≡ self.old.office }
        ensures class { self.new.class ≡ self.old.class }
        ensures ok { OnOk result (self.new.products ≡ self.old.products
            ++ product_of self.old.office self.old.class (decoded_of frame.now) ∷ []) }
        ensures err { OnErr result (self.new.products ≡ self.old.products) }
    {
        self.heard.reserve(1)?;
        let Some(rows) = self.rows.take() else {
            return Err(Oom);
        };
        let after = rows.leave_runs(alloc, frame.issue, judged)?;
        self.heard.push_reserved(Snapshot::of(frame));
        self.place += 1;
        self.rows = Some(after);
        Ok(())
    }

    /// Adds the product that was read as `frame` to those that were taken, and replaces the rows by
    /// the rows after it; its lines of another office or class are passed over. Fewer than 8,192
    /// products may have been taken before. It errs if memory runs out or the rows were lost
    /// before; then the product is not taken, and the rows may be lost.
    fn take_frame(&mut self, alloc: Global, frame: &Frame) -> Result<(), Oom>
        requires { place_of self.old < 8192 }
        ensures office { self.new.office ≡ self.old.office }
        ensures class { self.new.class ≡ self.old.class }
        ensures ok { OnOk result (self.new.products ≡ self.old.products
            ++ product_of self.old.office self.old.class (decoded_of frame.now) ∷ []) }
        ensures err { OnErr result (self.new.products ≡ self.old.products) }
    {
        let Some(rows) = &self.rows else {
            return Err(Oom);
        };
        let judged = judged_by_frame(alloc, &self.office, &self.class, rows, frame)?;
        self.keep(alloc, frame, judged.as_slice())
    }

    /// Takes `text`, the answer to the question for the product after the place `after`, and
    /// returns `New`, if `after` is the follower's place. If `after` is less, it changes nothing
    /// and returns `Old`. `after` must be at most the place, and the place below 8,192.
    ///
    /// # Errors
    ///
    /// The first fault of the text's frame, or out of memory; the products that were taken are as
    /// before.
    pub fn hear(&mut self, alloc: Global, after: u32, text: &[u8]) -> Result<Heard, Or<FrameFault>>
        requires asked { after ≤ place_of self.old }
        requires few { place_of self.old < 8192 }
        ensures answer { Gives result (answer_to (place_of self.old) after text.now) }
        ensures old { after ≢ place_of self.old → result ≡ Ok Heard.Old }
        ensures ok { OnOk result (self.new ≡ having_taken self.old after text.now) }
        ensures err { OnErr result (self.new ≡ self.old) }
        ensures onward { place_of self.old ≤ place_of self.new }
        // If a schedule led to this follower and the text was the answer, its delivery leads on,
        // and nothing is lost.
        ensures scheduled { OnOk result ((events : Seq Event) →
            (run events (begun self.old.office self.old.class)).follower ≡ self.old
            → answer_at (run events (begun self.old.office self.old.class)) after ≡ Some text.now
            → ((run (events ++ Delivered after ∷ [])
            (begun self.old.office self.old.class)).follower ≡ self.new)
            × HasLostNothing self.old.office self.old.class
            (run (events ++ Delivered after ∷ []) (begun self.old.office self.old.class))) }
    {
        if after != self.place {
            return Ok(Heard::Old);
        }
        let frame = read_frame(alloc, text)?;
        self.take_frame(alloc, &frame)?;
        Ok(Heard::New)
    }

    /// Returns the rows that are live at the minute `t` after all products that were taken, in
    /// ascending order of zone, then event.
    ///
    /// # Errors
    ///
    /// Out of memory, here or while a product was added.
    pub fn shown(&self, alloc: Global, t: Minute) -> Result<List<Row>, Oom>
        ensures { IfOk result (λ rows. rows ≡ shown_at t (rows_of self.now.products)) }
    {
        match &self.rows {
            Some(rows) => rows.shown(alloc, t),
            None => Err(Oom),
        }
    }
}
