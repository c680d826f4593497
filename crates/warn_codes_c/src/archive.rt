//! The products of a stream, taken as they come.
ghost use Rattle.std.specs.Prelude.{◌≤◌, length};

use hazard_types::{Class, List, Oom, Or};
use product_decoder::{Feed, Reader};
use product_frame::read_frame;
use std::alloc::Global;

/// What the products of a stream come to so far. After an `Oom` the rest of the stream must not be
/// taken.
#[derive(Drop)]
pub struct Archive {
    pub feed: Feed,
    /// The reader of the products without a fault.
    pub reader: Reader,
    /// The 1-based number of each of these among all products.
    pub numbers: List<u32>,
    /// How many products came, those with a fault among them.
    pub count: u32,
    pub ghost few: { length reader.products ≤ count },
}

impl Archive {
    ghost use Rattle.std.specs.Prelude.{◌≡◌, ◌<◌, ◌+◌, ◌++◌, true, false, length, [], Ok, OnOk, IfOk};
    ghost use Rattle.product_decoder.specs.Decoded.{decode};
    ghost use Rattle.warn_codes_c.specs.Archive.{Adds, Same, Pushed, Ended, Finished, readings_of, products_of, numbers_from};

    /// Returns an archive without products, which follows the lines of this office and class.
    pub fn new(alloc: Global, office: [u8; 4], class: Class) -> Self
        ensures office { result.reader.office ≡ office }
        ensures class { result.reader.class ≡ class }
        ensures products { result.reader.products ≡ [] }
        ensures numbers { result.numbers ≡ [] }
        ensures count { result.count ≡ 0 }
        ensures rest { result.feed.rest ≡ [] }
        ensures going { result.feed.ended ≡ false }
    {
        Archive {
            feed: Feed::new(alloc),
            reader: Reader::new(alloc, office, class),
            numbers: List::new(alloc),
            count: 0,
        }
    }

    /// Adds the text of one product to the archive. If its frame has a fault it is only counted.
    /// Returns `Oom` if memory runs out or 4,294,967,295 products were counted before.
    fn add_text(&mut self, alloc: Global, text: &[u8]) -> Result<(), Oom>
        ensures adds { OnOk result (Adds self.old (decode text.now) self.new) }
        ensures feed { self.new.feed ≡ self.old.feed }
    {
        if self.count == u32::MAX {
            return Err(Oom);
        }
        self.count += 1;
        match read_frame(alloc, text) {
            Ok(frame) => {
                self.reader.take_frame(alloc, &frame)?;
                self.numbers.push(self.count)
            }
            Err(Or::No(_fault)) => Ok(()),
            Err(Or::OutOfMemory) => Err(Oom),
        }
    }

    /// Takes the next whole product out of the feed and adds it to the archive, and returns whether
    /// there was one.
    #[tactic(auto, using(crate::proofs::Taking::same_next, crate::proofs::Taking::same_end, crate::proofs::Taking::nothing_left))]
    fn take_next(&mut self, alloc: Global) -> Result<bool, Oom>
        ensures same { OnOk result (Same self.old self.new) }
        ensures less { result ≡ Ok true → length self.new.feed.rest < length self.old.feed.rest }
        ensures none { result ≡ Ok false → self.old.feed.ended ≡ true → self.new.feed.rest ≡ [] }
    {
        match self.feed.take(alloc)? {
            Some(text) => {
                self.add_text(alloc, text.as_slice())?;
                Ok(true)
            }
            None => Ok(false),
        }
    }

    /// Adds each whole product that the feed has.
    #[tactic(auto, using(crate::proofs::Taking::same_none, crate::proofs::Taking::same_after, crate::proofs::Taking::smaller))]
    fn take_each(&mut self, alloc: Global) -> Result<(), Oom>
        ensures same { OnOk result (Same self.old self.new) }
        ensures last { OnOk result (self.old.feed.ended ≡ true → self.new.feed.rest ≡ []) }
    {
        let mut more = true;
        while more {
            more = self.take_next(alloc)?;
        }
        Ok(())
    }

    /// Adds the next piece of the stream, which may end anywhere, and each product that it makes
    /// whole. The stream must not have been ended.
    ///
    /// # Errors
    ///
    /// Out of memory.
    #[tactic(auto, using(crate::proofs::Taking::pushed))]
    pub fn push(&mut self, alloc: Global, piece: &[u8]) -> Result<(), Oom>
        requires { self.old.feed.ended ≡ false }
        ensures { OnOk result (Pushed self.old piece.now self.new) }
    {
        self.feed.push(alloc, piece)?;
        self.take_each(alloc)
    }

    /// Ends the stream, and adds the product that its end makes whole, if there is one. No piece
    /// may follow.
    ///
    /// # Errors
    ///
    /// Out of memory.
    #[tactic(auto, using(crate::proofs::Taking::ended))]
    pub fn end(&mut self, alloc: Global) -> Result<(), Oom>
        ensures { OnOk result (Ended self.old self.new) }
    {
        self.feed.end();
        self.take_each(alloc)
    }

    /// Ends the stream, and adds the product that its end makes whole, if there is one. The next
    /// piece starts another stream, whose products come after these.
    ///
    /// # Errors
    ///
    /// Out of memory.
    #[tactic(auto, using(crate::proofs::Taking::finished))]
    pub fn finish(&mut self, alloc: Global) -> Result<(), Oom>
        ensures { OnOk result (Finished self.old self.new) }
    {
        self.end(alloc)?;
        self.feed = Feed::new(alloc);
        Ok(())
    }
}

impl Archive {
    ghost use Rattle.std.specs.Prelude.{◌≡◌, IfOk};
    ghost use Rattle.warn_codes_c.specs.Archive.{readings_of, products_of, numbers_from};

    /// Returns the archive of a whole stream of products, which follows the lines of this office
    /// and class.
    ///
    /// # Errors
    ///
    /// Out of memory.
    #[tactic(auto, using(crate::proofs::Taking::whole_products, crate::proofs::Taking::whole_numbers))]
    pub fn of(alloc: Global, office: [u8; 4], class: Class, stream: &[u8]) -> Result<Self, Oom>
        ensures products { IfOk result
            (λ a. a.reader.products ≡ products_of office class (readings_of stream.now)) }
        ensures numbers { IfOk result (λ a. a.numbers ≡ numbers_from 1 (readings_of stream.now)) }
    {
        let mut archive = Archive::new(alloc, office, class);
        archive.push(alloc, stream)?;
        archive.end(alloc)?;
        Ok(archive)
    }
}
