//! Errors, as they are printed.
use desk_clock::read_local_line;
use desk_settings::read_settings;
use hazard_types::{Oom, parse_event, parse_zone};
use office_types::{Desk, Refusal};
use product_decoder::decode;
use std::alloc::{AllocError, Global};
use std::error::Error;
use ugc_codes::read_ugc;

/// A product's text in which line 6 has a bad zone.
const BAD_ZONES: &[u8] =
    b"WWUS41 KLWX 031530\nWSWLWX\n\n1030 AM EST Wed Jan 3 2018\n\nMDZ003-04-031500-\n$$\n";

/// Appends a line `error` with the words of an error of any type.
fn write_error<E: Error>(out: &mut String, error: E) -> Result<(), AllocError> {
    writeln!(out, "error {error}")
}

/// Appends a line `error` with the words of the error of a call, or `no error` if there is none.
fn write_error_of<T: Drop, E: Error>(
    out: &mut String,
    outcome: Result<T, E>,
) -> Result<(), AllocError> {
    match outcome {
        Ok(_value) => out.push_str("no error\n"),
        Err(error) => write_error(out, error),
    }
}

/// Appends the words of four refusals, a line each: with a number, with a desk, with a zone, and
/// with an event in a zone.
fn write_refusals(out: &mut String) -> Result<(), AllocError> {
    write_error(out, Refusal::Reused { last: 5 })?;
    if let Some(owner) = Desk::new(b"A") {
        write_error(out, Refusal::NotOwner { owner })?;
    }
    if let Some(zone) = parse_zone(b"MDZ099") {
        write_error(out, Refusal::UnknownZone { zone })?;
    }
    match (parse_event(b"WS.W.0001.2018"), parse_zone(b"MDZ006")) {
        (Some(event), Some(zone)) => write_error(out, Refusal::NotLive { event, zone }),
        _ => Ok(()),
    }
}

/// Appends the words of one error of each type, a line each: of a UGC string, of a local time, of a
/// product's text, of settings, then four refusals, and out of memory.
///
/// # Errors
///
/// Out of memory.
pub fn write_errors(alloc: Global, out: &mut String) -> Result<(), Oom> {
    write_error_of(out, read_ugc(alloc, b"MDZ005>003-031500-"))?;
    write_error_of(out, read_local_line(b"1030 AM XYZ Wed Jan 3 2018"))?;
    write_error_of(out, decode(alloc, BAD_ZONES))?;
    write_error_of(out, read_settings(alloc, b"office = \"KLWX\"\n"))?;
    write_refusals(out)?;
    write_error(out, Oom)?;
    Ok(())
}
