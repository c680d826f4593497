//! The values of P-VTEC and H-VTEC strings, as printed. A time is minutes since 2000-01-01 00:00
//! UTC; a time of zeros is a hyphen.
use hazard_types::{Flood, Minute, Vtec, is_location, is_office};
use hvtec_string::hvtec_text;
use std::alloc::AllocError;
use vtec_string::vtec_text;
use worked_lines::text_of;

/// Appends a blank and the minutes of a time since 2000-01-01T00:00Z, or a blank and a hyphen for
/// `None`.
fn push_time(out: &mut String, time: Option<Minute>) -> Result<(), AllocError> {
    match time {
        Some(minute) => {
            let count = minute.get();
            write!(out, " {count}")
        }
        None => out.push_str(" -"),
    }
}

/// Appends a line with the values of a P-VTEC string, in the order of the string. Times are minutes
/// since 2000-01-01T00:00Z, or a hyphen for zeros.
///
/// # Errors
///
/// Out of memory.
pub fn push_vtec(out: &mut String, v: &Vtec) -> Result<(), AllocError> {
    let class = v.class;
    let action = v.action;
    let office = text_of(&v.office);
    let phen = v.hazard.phen.letters();
    let phen = text_of(&phen);
    let sig = v.hazard.sig;
    let etn = v.etn;
    write!(out, "{class:?} {action:?} {office} {phen} {sig:?} {etn}")?;
    push_time(out, v.begin)?;
    push_time(out, v.end)?;
    out.push('\n')
}

/// Appends a line with the values of an H-VTEC string, in the order of the string. Times are
/// minutes since 2000-01-01T00:00Z, or a hyphen for zeros.
///
/// # Errors
///
/// Out of memory.
pub fn push_flood(out: &mut String, h: &Flood) -> Result<(), AllocError> {
    let site = text_of(&h.site);
    let severity = h.severity;
    let cause = h.cause.letters();
    let cause = text_of(&cause);
    let status = h.status;
    write!(out, "{site} {severity:?} {cause}")?;
    push_time(out, h.begin)?;
    push_time(out, h.crest)?;
    push_time(out, h.end)?;
    writeln!(out, " {status:?}")
}

/// Appends a line with the P-VTEC string of these values. If their office is not an office's code,
/// or their event tracking number has more than four digits, it is the line `no values of a P-VTEC
/// text`.
///
/// # Errors
///
/// Out of memory.
pub fn push_vtec_text(out: &mut String, v: &Vtec) -> Result<(), AllocError> {
    if !is_office(&v.office) || v.etn > 9999 {
        return out.push_str("no values of a P-VTEC text\n");
    }
    let text = vtec_text(v);
    out.push_str(text_of(&text))?;
    out.push('\n')
}

/// Appends a line with the H-VTEC string of these values. If their site is not a location's code,
/// it is the line `no values of an H-VTEC text`.
///
/// # Errors
///
/// Out of memory.
pub fn push_flood_text(out: &mut String, h: &Flood) -> Result<(), AllocError> {
    if !is_location(&h.site) {
        return out.push_str("no values of an H-VTEC text\n");
    }
    let text = hvtec_text(h);
    out.push_str(text_of(&text))?;
    out.push('\n')
}
