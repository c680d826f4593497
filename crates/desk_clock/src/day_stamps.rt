//! Day stamps: the day, hour and minute of a time, without month and year.
ghost use Rattle.std.specs.Prelude.{◌≡◌, ◌≢◌, ◌<◌, ◌≤◌, ◌↔◌, ℕ, IsTrue, IfSome, IsNone};
ghost use Rattle.hazard_types.specs.Days.{day_stamp_of};
ghost use Rattle.desk_clock.specs.DayStamps.{IsFirst, IsNear};

use hazard_types::{DayStamp, Minute, civil_of};

/// The minutes of a day.
const DAY: u32 = 1440;

/// The days of the years 2000 to 2099.
const DAYS: u32 = 36_525;

/// How far the day stamp of a heading may be from the issue minute, in minutes.
const REACH: u32 = 720;

/// Returns the day of the month, the hour and the minute of `m`, in UTC.
pub fn day_stamp(m: Minute) -> DayStamp
    ensures { result ≡ day_stamp_of m }
{
    let c = civil_of(m);
    DayStamp {
        day: c.day,
        hour: c.hour,
        minute: c.minute,
    }
}

/// Returns the first minute at or after `issue` whose day of the month, hour and minute (UTC) are
/// those of `d`. `None` if there is none before the year 2100, or if `d` is out of range.
///
/// Source: docs/DECISIONS.md, "Reading of texts" (day stamps out of range).
pub fn resolve_day_stamp(issue: Minute, d: DayStamp) -> Option<Minute>
    ensures found { IfSome result (IsFirst issue d) }
    ensures none { IsNone result → (m : ℕ) → issue ≤ m → m < 52596000 → day_stamp_of m ≢ d }
{
    if d.day > 31 || d.hour > 23 || d.minute > 59 {
        return None;
    }
    let time = u32::from(d.hour) * 60 + u32::from(d.minute);
    for day in issue.get() / DAY..DAYS {
        let Some(m) = Minute::new(day * DAY + time) else {
            return None;
        };
        if issue.get() <= m.get() && day_stamp(m).day == d.day {
            return Some(m);
        }
    }
    None
}

/// Whether a minute at most 720 minutes (twelve hours) before or after `issue` has the day stamp
/// `d`.
///
/// Source: docs/LIBRARY.md, "The text of a product" (`IssueDisagrees`).
pub fn has_near_day_stamp(issue: Minute, d: DayStamp) -> bool
    ensures { IsTrue result ↔ IsNear issue d }
{
    let from = match Minute::new(issue.get().saturating_sub(REACH)) {
        Some(from) => from,
        None => issue,
    };
    match resolve_day_stamp(from, d) {
        Some(m) => m.get() <= issue.get() + REACH,
        None => false,
    }
}
