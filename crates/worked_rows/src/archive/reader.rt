//! A reader of the products of an archive that goes on after it ran out of memory.
ghost use Rattle.std.specs.Prelude.{◌≡◌, []};

use archive_report::Asked;
use hazard_types::{List, Minute, Oom, Or, Text};
use product_decoder::{Decoded, Reader, decode, products_of};
use std::alloc::Global;
use std::marker::Model;

/// A reader, and counts of what came to it.
#[derive(Drop)]
struct Taking {
    reader: Reader,
    /// The number of products that the reader took.
    taken: u32,
    /// The number of them that it took the second time only, since memory ran out the first time.
    again: u32,
    /// The number of texts with a fault.
    faults: u32,
}

impl Model for Taking {
    ghost use Rattle.std.specs.Prelude.{◌≤◌, length};
    ghost use Rattle.product_decoder.specs.ReaderModel.{Reading};

    ghost Value = { Reading };

    ghost view = { λ t. t.reader };

    ghost invariant = { λ t. length t.reader.products ≤ t.taken };
}

impl Taking {
    /// Returns a reader of the office and P-VTEC product class of `asked`, with all counts at 0 and
    /// no product taken.
    fn new(alloc: Global, asked: &Asked) -> Self
        ensures { result.products ≡ [] }
    {
        Taking {
            reader: Reader::new(alloc, asked.office, asked.class),
            taken: 0,
            again: 0,
            faults: 0,
        }
    }

    /// Has the reader take a product, and tries once more if memory runs out; a success at the
    /// second try is counted in `again`. Errs if memory runs out both times. After 4,294,967,295
    /// products it does nothing.
    fn take(&mut self, alloc: Global, product: &Decoded) -> Result<(), Oom> {
        let Some(taken) = self.taken.checked_add(1) else {
            return Ok(());
        };
        match self.reader.take(alloc, product) {
            Ok(()) => {}
            Err(Oom) => {
                self.reader.take(alloc, product)?;
                self.again = self.again.saturating_add(1);
            }
        }
        self.taken = taken;
        Ok(())
    }

    /// Decodes the text of a product and has the reader take it, or adds 1 to `faults` if the text
    /// has a fault. Errs only if memory runs out.
    fn read(&mut self, alloc: Global, text: &[u8]) -> Result<(), Oom> {
        match decode(alloc, text) {
            Ok(product) => self.take(alloc, &product),
            Err(Or::No(_fault)) => {
                self.faults = self.faults.saturating_add(1);
                Ok(())
            }
            Err(Or::OutOfMemory) => Err(Oom),
        }
    }

    /// Returns the line `products N, faults N, lives N, breaches N, gaps N, shown N`: how many
    /// products the reader took, how many texts had a fault, how many lives, breaches and gaps the
    /// products taken have, and how many rows they leave live at `minute`. A second line, `taken
    /// again N`, follows if N products, at least one, were taken only at the second try.
    fn told(&self, alloc: Global, minute: Minute) -> Result<String, Oom> {
        let lives = self.reader.lives(alloc)?.len();
        let breaches = self.reader.breaches(alloc)?.len();
        let gaps = self.reader.gaps(alloc)?.len();
        let shown = self.reader.shown(alloc, minute)?.len();
        let taken = self.taken;
        let faults = self.faults;
        let mut out = format!(in alloc; "products {taken}, faults {faults}, lives {lives}, ")?;
        writeln!(out, "breaches {breaches}, gaps {gaps}, shown {shown}")?;
        if self.again > 0 {
            let again = self.again;
            writeln!(out, "taken again {again}")?;
        }
        Ok(out)
    }
}

/// Returns the line `products N, faults N, lives N, breaches N, gaps N, shown N` of what a reader
/// finds in the archive `input`, split into pieces of `piece` bytes (1 for 0). `asked` has the
/// office and class of the reader, and the minute for `shown`, the count of the rows that are live
/// then. A second line, `taken again N`, follows if N products, at least one, were taken only at a
/// second try, after memory had run out at the first.
///
/// # Errors
///
/// Out of memory.
pub fn read_by_reader(
    alloc: Global,
    asked: &Asked,
    input: &[u8],
    piece: usize,
) -> Result<String, Oom> {
    let mut pieces = List::new(alloc);
    for bytes in input.chunks(piece.max(1)) {
        pieces.push(List::from_slice(alloc, bytes)?)?;
    }
    let texts: List<Text> = products_of(alloc, pieces.as_slice())?;
    let mut taking = Taking::new(alloc, asked);
    for text in texts.as_slice() {
        taking.read(alloc, text.as_slice())?;
    }
    taking.told(alloc, asked.minute)
}
