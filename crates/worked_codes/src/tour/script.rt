//! The lines of the tour: a stream of two products, and then `tour`, which prints what each call
//! returns.
use crate::tour::codes::write_codes;
use crate::tour::errors::write_errors;
use crate::tour::products::write_products;
use crate::tour::streams::write_stream;
use hazard_types::{List, Oom, Or, Text};
use product_frame::FrameFault;
use std::alloc::Global;
use worked_lines::Work;

/// Returns what the tour prints, the answers of the libraries to codes, to the first two products
/// of `stream`, and to texts with errors. Errs with the first fault of one of these two products.
fn answers_of(alloc: Global, stream: &[u8]) -> Result<String, Or<FrameFault>> {
    let mut out = String::new(alloc);
    write_codes(alloc, &mut out)?;
    let texts = write_stream(alloc, &mut out, stream)?;
    write_products(alloc, &mut out, texts.as_slice())?;
    write_errors(alloc, &mut out)?;
    Ok(out)
}

/// The stream so far.
#[derive(Drop)]
pub struct Tour {
    stream: Text,
}

impl Tour {
    /// Returns a tour whose stream is empty.
    pub fn new(alloc: Global) -> Self {
        Tour {
            stream: List::new(alloc),
        }
    }
}

impl Work for Tour {
    /// Returns what the tour prints for the line `tour`, or `no tour` if a product has a fault. Any
    /// other line is appended to the stream with an LF, and nothing is printed.
    fn work(&mut self, alloc: Global, line: &str) -> Result<String, Oom> {
        if line != "tour" {
            self.stream.extend(line.as_bytes())?;
            self.stream.push(b'\n')?;
            return Ok(String::new(alloc));
        }
        match answers_of(alloc, self.stream.as_slice()) {
            Ok(out) => Ok(out),
            Err(Or::No(_fault)) => Ok(String::from_str(alloc, "no tour\n")?),
            Err(Or::OutOfMemory) => Err(Oom),
        }
    }
}
