//! The readers of local times and day stamps.
use desk_clock::{
    LocalFault, has_near_day_stamp, local_line, local_short, read_local_line, resolve_day_stamp,
};
use desk_settings::local_zone_in;
use hazard_types::{DayStamp, LocalZone, Minute, Oom, parse_stamp, stamp};
use std::alloc::{AllocError, Global};
use worked_lines::text_of;

/// Returns the local zone and the minute of the words `ZONE STAMP`, as `Eastern 180103T1530Z`, or
/// `None` if `text` is not such words.
fn zone_and_minute_of(text: &str) -> Option<(LocalZone, Minute)> {
    let (name, stamp) = text.split_once(' ')?;
    let zone = local_zone_in(name)?;
    let minute = parse_stamp(stamp.as_bytes())?;
    Some((zone, minute))
}

/// Returns the local date and time line of the words `ZONE STAMP`, with an LF: `1030 AM EST Wed Jan
/// 3 2018` for `Eastern 180103T1530Z`. It is `no place` and an LF if `text` is not such words.
///
/// # Errors
///
/// Out of memory.
pub fn line_answer(alloc: Global, text: &str) -> Result<String, Oom> {
    let mut out = String::new(alloc);
    match zone_and_minute_of(text) {
        Some((zone, minute)) => {
            let line = local_line(alloc, zone, minute)?;
            let line = text_of(line.as_slice());
            writeln!(&mut out, "{line}")?;
        }
        None => out.push_str("no place\n")?,
    }
    Ok(out)
}

/// Returns the local date and time of the words `ZONE STAMP` without the year, with an LF: `1030 AM
/// EST Wed Jan 3` for `Eastern 180103T1530Z`. It is `no place` and an LF if `text` is not such
/// words.
///
/// # Errors
///
/// Out of memory.
pub fn short_answer(alloc: Global, text: &str) -> Result<String, Oom> {
    let mut out = String::new(alloc);
    match zone_and_minute_of(text) {
        Some((zone, minute)) => {
            let line = local_short(alloc, zone, minute)?;
            let line = text_of(line.as_slice());
            writeln!(&mut out, "{line}")?;
        }
        None => out.push_str("no place\n")?,
    }
    Ok(out)
}

/// Returns the UTC stamp of a local date and time line, as `180103T1530Z` for `1030 AM EST Wed Jan
/// 3 2018`, or the name of the line's fault, with an LF.
///
/// # Errors
///
/// Out of memory.
pub fn read_answer(alloc: Global, text: &str) -> Result<String, AllocError> {
    let mut out = String::new(alloc);
    match read_local_line(text.as_bytes()) {
        Ok(minute) => {
            let stamp = stamp(minute);
            let stamp = text_of(&stamp);
            writeln!(&mut out, "{stamp}")?;
        }
        Err(LocalFault::NoLocalTime) => out.push_str("NoLocalTime\n")?,
        Err(LocalFault::UnknownAbbreviation) => out.push_str("UnknownAbbreviation\n")?,
    }
    Ok(out)
}

/// Returns the issue minute and the day stamp of the words `STAMP DAY HOUR MINUTE`, as
/// `180103T1530Z 3 15 30`, or `None` if `text` is not such words. The day stamp may be out of
/// range.
fn asked_of(text: &str) -> Option<(Minute, DayStamp)> {
    let mut words = text.split(' ');
    let issue = parse_stamp(words.next()?.as_bytes())?;
    let day = words.next()?.parse().ok()?;
    let hour = words.next()?.parse().ok()?;
    let minute = words.next()?.parse().ok()?;
    Some((issue, DayStamp { day, hour, minute }))
}

/// Returns the stamp of the first minute at or after the issue time that has the day stamp, or
/// `none`, and then ` near` if a minute within twelve hours of the issue time has the day stamp,
/// else ` far`, and an LF. `text` is the words `STAMP DAY HOUR MINUTE`: the issue time and the day
/// stamp. For anything else it is `no day stamp` and an LF.
///
/// # Errors
///
/// Out of memory.
pub fn day_answer(alloc: Global, text: &str) -> Result<String, AllocError> {
    let mut out = String::new(alloc);
    let Some((issue, day)) = asked_of(text) else {
        out.push_str("no day stamp\n")?;
        return Ok(out);
    };
    match resolve_day_stamp(issue, day) {
        Some(minute) => {
            let stamp = stamp(minute);
            let stamp = text_of(&stamp);
            write!(&mut out, "{stamp}")?;
        }
        None => out.push_str("none")?,
    }
    out.push_str(if has_near_day_stamp(issue, day) {
        " near\n"
    } else {
        " far\n"
    })?;
    Ok(out)
}
