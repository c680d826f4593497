//! Products, read one at a time and then together.
use hazard_types::{Class, Minute, Oom, Or, Text, parse_stamp};
use product_decoder::{Reader, Track, decode};
use product_frame::FrameFault;
use std::alloc::{AllocError, Global};
use worked_lines::text_of;

/// Appends a line with the identifier, the issue time and the number of P-VTEC lines of the first
/// product of a text, each counted once for each zone of its segment, or with its first fault.
fn write_product(alloc: Global, out: &mut String, text: &[u8]) -> Result<(), Oom> {
    match decode(alloc, text) {
        Ok(product) => {
            let identifier = text_of(product.identifier.as_slice());
            let lines = product.pairs.len();
            let issue = product.issue;
            writeln!(out, "product {identifier} {issue} {lines}")?;
        }
        Err(Or::No(fault)) => writeln!(out, "product {fault:?}")?,
        Err(Or::OutOfMemory) => return Err(Oom),
    }
    Ok(())
}

/// Returns a reader that has taken two products of office KLWX, or the first fault of the first
/// text that has one.
fn reader_of(alloc: Global, first: &[u8], second: &[u8]) -> Result<Reader, Or<FrameFault>> {
    let mut reader = Reader::new(alloc, *b"KLWX", Class::O);
    let product = decode(alloc, first)?;
    reader.take(alloc, &product)?;
    let product = decode(alloc, second)?;
    reader.take(alloc, &product)?;
    Ok(reader)
}

/// Appends a line with the life of an event in a zone: the event, the zone, and the action and the
/// time of each step.
fn write_life(out: &mut String, life: &Track) -> Result<(), AllocError> {
    write!(out, "life {} {}", life.event, life.zone)?;
    for step in life.steps.as_slice() {
        write!(out, " {:?} {}", step.0, step.1)?;
    }
    out.push('\n')
}

/// Appends what a reader has found, a line each: the life of each event in each zone, the lines in
/// breach of a rule, and the rows that are live at `minute`.
fn write_findings(
    alloc: Global,
    out: &mut String,
    reader: &Reader,
    minute: Minute,
) -> Result<(), Oom> {
    for life in reader.lives(alloc)?.as_slice() {
        write_life(out, life)?;
    }
    for found in reader.breaches(alloc)?.as_slice() {
        let product = found.product;
        let breach = found.breach;
        writeln!(
            out,
            "breach {product} {} {} {breach:?}",
            found.event, found.zone
        )?;
    }
    for row in reader.shown(alloc, minute)?.as_slice() {
        writeln!(out, "shown {} {}", row.event, row.zone)?;
    }
    Ok(())
}

/// Appends what is read in two products' texts, each alone, and then what a reader finds in both,
/// with the rows that are live at 2018-01-03 17:00 UTC. Errs with the first fault of the first text
/// that has one.
fn write_both(
    alloc: Global,
    out: &mut String,
    first: &[u8],
    second: &[u8],
) -> Result<(), Or<FrameFault>> {
    write_product(alloc, out, first)?;
    write_product(alloc, out, second)?;
    let reader = reader_of(alloc, first, second)?;
    if let Some(minute) = parse_stamp(b"180103T1700Z") {
        write_findings(alloc, out, &reader, minute)?;
    }
    Ok(())
}

/// Appends what is read in a text that is no product, and then in the first two of `texts`, each
/// alone and both together. With fewer than two texts it appends only the former.
///
/// # Errors
///
/// - `No` with the first fault of one of the two texts.
/// - `OutOfMemory`.
pub fn write_products(
    alloc: Global,
    out: &mut String,
    texts: &[Text],
) -> Result<(), Or<FrameFault>> {
    write_product(alloc, out, b"no product\n")?;
    match texts {
        [first, second, ..] => write_both(alloc, out, first.as_slice(), second.as_slice()),
        _ => Ok(()),
    }
}
