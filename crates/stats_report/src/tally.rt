//! What was counted in the products of an input.
ghost use Rattle.std.specs.Prelude.{◌≡◌, ◌<◌, ◌+◌, ℕ, [], IfOk, OnOk};
ghost use Rattle.product_decoder.specs.Decoded.{decoded_of};
ghost use Rattle.archive_report.specs.Readings.{said_of};
ghost use Rattle.stats_report.specs.Tallies.{IsKept, Counts, CountsFault, TakesProduct, TakesReading};

use crate::standing::{Moment, Standing};
use archive_report::{Asked, Reading};
use hazard_types::Oom;
use product_decoder::judged_by_frame;
use product_frame::Frame;
use row_index::RowIndex;
use std::alloc::Global;
use std::mem;

/// What was counted in the products so far. It keeps no product.
#[derive(Drop)]
pub struct Tally {
    /// The rows after the products without a fault.
    pub rows: RowIndex,
    /// The greatest issue minute of these products, in minutes since 2000-01-01T00:00Z; 0 if there
    /// are none.
    pub latest: u32,
    /// The minutes of these rows, and the sums by zone and by hazard.
    pub standing: Standing,
    /// How many products there are.
    pub count: usize,
    /// How many products have a fault.
    pub faults: usize,
}

/// Returns `count + 1`, or `Oom` if it overflows, which no input causes.
fn one_more(count: usize) -> Result<usize, Oom>
    ensures { IfOk result (λ n. n ≡ count + 1) }
{
    match count.checked_add(1) {
        Some(more) => Ok(more),
        None => Err(Oom),
    }
}

impl Tally {
    /// Returns a tally without products, in which all counts and sums are zero.
    #[tactic(auto, using(crate::proofs::Keeping::none_kept))]
    pub fn new(alloc: Global) -> Self
        ensures kept { (stamp : ℕ) → IsKept stamp [] result }
        ensures count { result.count ≡ 0 }
        ensures faults { result.faults ≡ 0 }
    {
        Tally {
            rows: RowIndex::new(alloc),
            latest: 0,
            standing: Standing::new(alloc),
            count: 0,
            faults: 0,
        }
    }

    /// Adds the lines of a product without a fault to the rows and to the sums, and makes its issue
    /// minute the `latest` if it is later. Lines of another office or class than `asked` has are
    /// passed over, and minutes are counted before the minute of `asked`.
    fn add_product_lines(&mut self, alloc: Global, asked: &Asked, frame: &Frame) -> Result<(), Oom>
        ensures { OnOk result (TakesProduct asked.now (decoded_of frame.now) self.old self.new) }
    {
        let issue = frame.issue;
        let found = judged_by_frame(alloc, &asked.office, &asked.class, &self.rows, frame)?;
        let runs = found.as_slice();
        let rows = mem::replace(&mut self.rows, RowIndex::new(alloc));
        self.rows = rows.leave_runs(alloc, issue, runs)?;
        self.latest = self.latest.max(issue.get());
        let moment = Moment {
            stamp: asked.minute,
            from: self.latest,
            issue,
        };
        self.standing.change_all(alloc, &moment, runs)
    }

    /// Adds one to the count of products that have a fault.
    fn count_fault(&mut self) -> Result<(), Oom>
        ensures { OnOk result (CountsFault self.old self.new) }
    {
        self.faults = one_more(self.faults)?;
        Ok(())
    }

    /// Adds the lines of a product, or its fault if it has one, to the tally. The count of all
    /// products stays as it is, and `asked` has the office and class whose lines count and the
    /// minute before which minutes are counted.
    fn add_reading(&mut self, alloc: Global, asked: &Asked, reading: &Reading) -> Result<(), Oom>
        ensures { OnOk result (TakesReading asked.now (said_of reading.now) self.old self.new) }
    {
        match reading {
            Ok(frame) => self.add_product_lines(alloc, asked, frame),
            Err(_fault) => self.count_fault(),
        }
    }

    /// Adds the next product of the input, as it was read, to the tally: to the count of products,
    /// and its lines, or its fault if it has one. The tally must have fewer than 2,000,000,000
    /// products. `asked` has the office and class whose lines count, and the minute before which
    /// minutes are counted.
    ///
    /// # Errors
    ///
    /// Out of memory. The tally is then of no further use.
    pub fn take(&mut self, alloc: Global, asked: &Asked, reading: &Reading) -> Result<(), Oom>
        requires few { self.old.count < 2000000000 }
        ensures { OnOk result (Counts asked.now (said_of reading.now) self.old self.new) }
    {
        self.count += 1;
        self.add_reading(alloc, asked, reading)
    }
}
