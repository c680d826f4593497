//! UGC and P-VTEC strings, read and written.
use hazard_types::{Action, Oom, Or, Text};
use std::alloc::{AllocError, Global};
use ugc_codes::{UgcFault, read_ugc, write_ugc};
use vtec_string::{read_vtec, vtec_text};
use worked_lines::text_of;

/// Returns the P-VTEC string that continues (CON) the event of another one, with zeros as its
/// begin, or `None` if `text` is no P-VTEC string.
fn continuation(text: &[u8]) -> Option<[u8; 48]> {
    let mut vtec = read_vtec(text)?;
    vtec.action = Action::Con;
    vtec.begin = None;
    Some(vtec_text(&vtec))
}

/// Returns the UGC string that the desk writes for the zones and the expiry of the UGC string that
/// `text` starts with. It errs with the first fault of `text` if there is none.
fn desk_form(alloc: Global, text: &[u8]) -> Result<Text, Or<UgcFault>> {
    let read = read_ugc(alloc, text)?;
    let written = write_ugc(alloc, &read.zones, read.expiry)?;
    Ok(written)
}

/// Appends a line `vtec` with the string that continues the event of a P-VTEC string, or `none` if
/// `text` is not one.
fn write_vtec(out: &mut String, text: &[u8]) -> Result<(), AllocError> {
    match continuation(text) {
        Some(text) => {
            let text = text_of(&text);
            writeln!(out, "vtec {text}")
        }
        None => out.push_str("vtec none\n"),
    }
}

/// Appends a line `ugc` with the UGC string that the desk writes for the zones and the expiry of
/// the one that `text` starts with. If there is none, the line has the first fault and the index of
/// its byte, or `CutShort`, which has no byte.
fn write_ugc_answer(alloc: Global, out: &mut String, text: &[u8]) -> Result<(), Oom> {
    match desk_form(alloc, text) {
        Ok(text) => {
            let text = text_of(text.as_slice());
            writeln!(out, "ugc {text}")?;
        }
        Err(Or::No(UgcFault::NotACode { at })) => writeln!(out, "ugc NotACode {at}")?,
        Err(Or::No(UgcFault::BadRange { at })) => writeln!(out, "ugc BadRange {at}")?,
        Err(Or::No(UgcFault::CutShort)) => out.push_str("ugc CutShort\n")?,
        Err(Or::OutOfMemory) => return Err(Oom),
    }
    Ok(())
}

/// Appends what the calls return for two P-VTEC and four UGC strings, some of them wrong, a line
/// each.
///
/// # Errors
///
/// Out of memory.
pub fn write_codes(alloc: Global, out: &mut String) -> Result<(), Oom> {
    write_vtec(out, b"/O.NEW.KLWX.FG.Y.0001.180103T1000Z-180103T1500Z/")?;
    write_vtec(out, b"/O.NEW.KLWX.FG.Y.0001.180103T1000Z-180103T1500/")?;
    write_ugc_answer(alloc, out, b"MDZ005-003-004-VAZ028-031500-")?;
    write_ugc_answer(alloc, out, b"MDZ003-04-031500-")?;
    write_ugc_answer(alloc, out, b"MDZ005>003-031500-")?;
    write_ugc_answer(alloc, out, b"MDZ003-004")
}
