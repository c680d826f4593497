//! The reader of a drill's texts, which has the texts alone.
ghost use Rattle.std.specs.Prelude.{◌≡◌, ◌≤◌, ◌<◌, ◌+◌, ◌^◌, ◌++◌, [], IfOk, OnOk, length};
ghost use Rattle.hazard_types.specs.declared.codes.Class.TheVariants as classes;
ghost use Rattle.event_life.specs.Products.{rows_of};
ghost use Rattle.event_life.specs.Shown.{shown_at};
ghost use Rattle.office_core.specs.Agreement.{product_in};
ghost use Rattle.product_decoder.specs.Decoded.{decode};
ghost use Rattle.desk_drill.specs.Office.{drill_office};
ghost use Rattle.desk_drill.specs.Tellings.{fault_of, findings_in};

use hazard_types::{Class, Minute, Oom, Or};
use product_decoder::{Reader, decode};
use std::alloc::Global;

/// A reader of texts, and the number of texts that did not decode.
#[derive(Drop)]
pub struct TextReader {
    pub reader: Reader,
    pub faults: u32,
}

impl TextReader {
    /// Returns a reader, for texts of class O of the office `KDRL`, that has read no text.
    pub fn new(alloc: Global) -> Self
        ensures office { result.reader.office ≡ drill_office }
        ensures class { result.reader.class ≡ classes.O }
        ensures products { result.reader.products ≡ [] }
        ensures faults { result.faults ≡ 0 }
    {
        TextReader {
            reader: Reader::new(alloc, *b"KDRL", Class::O),
            faults: 0,
        }
    }

    /// Decodes a text and adds its product to those of the reader, after the others. A text that
    /// does not decode adds one to `faults` instead.
    ///
    /// # Errors
    ///
    /// Out of memory.
    pub fn read(&mut self, alloc: Global, text: &[u8]) -> Result<(), Oom>
        requires few { length self.old.reader.products < 8192 }
        requires faults { self.old.faults < 8192 }
        ensures office { self.new.reader.office ≡ self.old.reader.office }
        ensures class { self.new.reader.class ≡ self.old.reader.class }
        ensures products { OnOk result (self.new.reader.products ≡ self.old.reader.products
            ++ product_in self.old.reader.office self.old.reader.class (decode text.now)) }
        ensures faults { OnOk result
            (self.new.faults ≡ self.old.faults + fault_of (decode text.now)) }
    {
        match decode(alloc, text) {
            Ok(decoded) => self.reader.take(alloc, &decoded),
            Err(Or::No(_fault)) => {
                self.faults += 1;
                Ok(())
            }
            Err(Or::OutOfMemory) => Err(Oom),
        }
    }

    /// Returns the sum of two numbers: the lines of the reader's products that break a rule, and
    /// the gaps in their event numbers.
    fn findings(&self, alloc: Global) -> Result<usize, Oom>
        ensures value { IfOk result (λ n. n ≡ findings_in self.now.reader.products) }
        ensures bound { IfOk result (λ n. n + 8192 < 2 ^ 64) }
    {
        let breaches = self.reader.breaches(alloc)?;
        let gaps = self.reader.gaps(alloc)?;
        Ok(breaches.len() + gaps.len())
    }

    /// Returns the sum of three numbers: the lines of the reader's products that break a rule, the
    /// gaps in their event numbers, and the texts that did not decode.
    ///
    /// # Errors
    ///
    /// Out of memory.
    pub fn breaches(&self, alloc: Global) -> Result<usize, Oom>
        requires { self.now.faults ≤ 8192 }
        ensures { IfOk result (λ n. n ≡ self.now.faults + findings_in self.now.reader.products) }
    {
        let findings = self.findings(alloc)?;
        Ok(self.faults as usize + findings)
    }

    /// Returns the number of rows that are live at minute `t` after the reader's products: no line
    /// has ended them, and their end is after `t`.
    ///
    /// # Errors
    ///
    /// Out of memory.
    pub fn shown(&self, alloc: Global, t: Minute) -> Result<usize, Oom>
        ensures { IfOk result (λ n. n ≡ length (shown_at t (rows_of self.now.reader.products))) }
    {
        let rows = self.reader.shown(alloc, t)?;
        Ok(rows.len())
    }
}
