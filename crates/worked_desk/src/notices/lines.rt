//! Lines that are made from a pattern.
use hazard_types::Oom;
use std::alloc::Global;

/// Returns the pattern with `number` as three digits, or as four or five from 1,000 on, in place of
/// its first `###`, and as `HHMM`, the number as minutes of a day, in place of the first `@@@@`
/// after that. Digits whose place is missing are added at the end.
///
/// # Errors
///
/// Out of memory.
pub fn numbered_line(alloc: Global, pattern: &str, number: u16) -> Result<String, Oom> {
    let (front, rest) = pattern.split_once("###").unwrap_or((pattern, ""));
    let (middle, back) = rest.split_once("@@@@").unwrap_or((rest, ""));
    let hour = number / 60;
    let minute = number % 60;
    Ok(format!(in alloc; "{front}{number:03}{middle}{hour:02}{minute:02}{back}")?)
}

/// Returns the pattern with the JSON strings `"MDC001"` to the county with number `last`, separated
/// by commas, in place of its first `***`. Without `***` they are added at the end.
///
/// # Errors
///
/// Out of memory.
pub fn line_of_counties(alloc: Global, pattern: &str, last: u16) -> Result<String, Oom> {
    let (front, back) = pattern.split_once("***").unwrap_or((pattern, ""));
    let mut line = String::from_str(alloc, front)?;
    for before in 0..last {
        let number = before + 1;
        let comma = if before == 0 { "" } else { "," };
        let county = format!(in alloc; "{comma}\"MDC{number:03}\"")?;
        line.push_str(county.as_str())?;
    }
    line.push_str(back)?;
    Ok(line)
}
