//! What was found in the products of an input.
ghost use Rattle.std.specs.Prelude.{◌≡◌, ◌<◌, OnOk, []};
ghost use Rattle.archive_report.specs.Pieces.{IsTally, Counts};
ghost use Rattle.archive_report.specs.Readings.{said_of};

use crate::words::Asked;
use hazard_types::{List, Oom};
use product_decoder::Reader;
use product_frame::{Frame, FrameFault};
use std::alloc::Global;

/// A product that was read: its frame, or its first fault.
pub type Reading = Result<Frame, FrameFault>;

/// What was found in the products so far.
#[derive(Drop)]
pub struct Tally {
    /// The reader of the products without a fault.
    pub reader: Reader,
    /// The numbers of these among all products, counted from 1.
    pub numbers: List<usize>,
    /// How many products there are.
    pub count: usize,
    /// How many products have a fault.
    pub faults: usize,
}

impl Tally {
    /// Returns the tally of no products, for the lines of the office and class of `asked`.
    pub fn new(alloc: Global, asked: &Asked) -> Self
        ensures tally { IsTally asked.now result }
        ensures products { result.reader.products ≡ [] }
        ensures numbers { result.numbers ≡ [] }
        ensures count { result.count ≡ 0 }
        ensures faults { result.faults ≡ 0 }
    {
        Tally {
            reader: Reader::new(alloc, asked.office, asked.class),
            numbers: List::new(alloc),
            count: 0,
            faults: 0,
        }
    }

    /// Adds the next product of the input: its frame, or, if `reading` is a fault, only to the
    /// counts of products and faults. `asked` must have the office and class that the tally was
    /// made for. The tally must have fewer than 2,000,000,000 products.
    ///
    /// # Errors
    ///
    /// Out of memory. The tally is then of no further use.
    pub fn take(&mut self, alloc: Global, asked: &Asked, reading: &Reading) -> Result<(), Oom>
        requires tally { IsTally asked.now self.old }
        requires few { self.old.count < 2000000000 }
        ensures tally { OnOk result (IsTally asked.now self.new) }
        ensures counts { OnOk result (Counts asked.now (said_of reading.now) self.old self.new) }
    {
        match reading {
            Ok(frame) => {
                self.reader.take_frame(alloc, frame)?;
                self.numbers.push(self.count + 1)?;
            }
            Err(_fault) => self.faults += 1,
        }
        self.count += 1;
        Ok(())
    }
}
