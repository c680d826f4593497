//! Local dates and times, by the calendar of `jiff`.
ghost use Rattle.std.specs.Prelude.{◌≡◌, ◌<◌, ◌+◌, ◌/◌, ◌%◌, ◌*◌, ◌≤◌, ◌<ℤ◌, pos, IfSome, MatchOption};
ghost use Rattle.jiff_core.specs.Calendar.{days_from_civil};
ghost use Rattle.std.specs.Option.{is_some};
ghost use Rattle.jiff_core.specs.Date.{epoch_day};
ghost use Rattle.jiff_core.specs.Weekday.{monday_zero};
ghost use Rattle.hazard_types.specs.Calendar.{IsCivil, minute_of};
ghost use Rattle.hazard_types.specs.declared.calendar.Civil.{Civil};
ghost use Rattle.desk_clock.specs.LocalTimes.{local_time, IsShown, has_date, local_minutes, minute_shown};

use crate::abbreviations::Abbreviation;
use hazard_types::Minute;
use jiff_core::civil::{Date, Weekday};

/// A date and a time of day on a local clock. Month and day count from 1, hours from 0 to 23.
#[derive(Clone, Copy, Debug, PartialEq, Eq)]
pub struct LocalTime {
    pub year: u16,
    pub month: u8,
    pub day: u8,
    pub hour: u8,
    pub minute: u8,
}

/// The days from the first day of jiff's calendar to 1999-12-31.
const FIRST: u32 = 4_382_543;

/// The number that `jiff` gives a day of 2000 to 2099 is 10957 more than its number in the calendar
/// of `hazard_types`: 2000-01-01 is day 10957 of `jiff` and day 0 there.
pub fn calendars_agree()
    ensures { (c : Civil) →
        IsCivil c →
        days_from_civil (pos (2000 + c.year)) c.month c.day ≡ pos (10957 + minute_of c / 1440) }
{}

/// Returns the date and time of day that a local clock shows `shown` minutes after it showed
/// 1999-12-31T00:00, without a change to or from daylight time.
pub fn local_time(shown: u32) -> LocalTime
    requires { shown < 52597440 }
    ensures value { result ≡ local_time shown }
    ensures range { IsShown result }
{
    let date = Date::from_days_since_min(FIRST + shown / 1440);
    LocalTime {
        year: date.year as u16,
        month: date.month,
        day: date.day,
        hour: (shown % 1440 / 60) as u8,
        minute: (shown % 60) as u8,
    }
}

/// Returns the weekday that a local clock shows `shown` minutes after it showed 1999-12-31T00:00,
/// without a change to or from daylight time.
pub fn weekday(shown: u32) -> Weekday
    requires { shown < 52597440 }
    ensures { monday_zero result ≡ (shown / 1440 + 4) % 7 }
{
    Date::from_days_since_min(FIRST + shown / 1440).weekday()
}

/// Returns the date of `t`, or `None` if it does not exist or its year is not 1999 to 2099.
#[tactic(auto, unfolding(crate::specs::LocalTimes::has_date))]
fn date_of(t: LocalTime) -> Option<Date>
    ensures test { is_some result ≡ has_date t }
    ensures date { IfSome result
        (λ d. (d.year ≡ pos t.year) × (d.month ≡ t.month) × (d.day ≡ t.day)) }
    ensures years { IfSome result (λ _. (1999 ≤ t.year) × (t.year ≤ 2099)) }
{
    if t.year < 1999 || t.year > 2099 || t.month > 12 || t.day > 31 {
        return None;
    }
    match Date::new(t.year as i16, t.month as i8, t.day as i8) {
        Ok(date) => Some(date),
        Err(_) => None,
    }
}

/// Returns the number of days from 1999-12-31 to a date, or `None` if the date is before that day.
fn days_since_last_of_1999(date: Date) -> Option<u32>
    ensures { MatchOption result (epoch_day date <ℤ pos 10956)
        (λ days. epoch_day date ≡ pos (10956 + days)) }
{
    date.days_since_min().checked_sub(FIRST)
}

/// Whether the date of `t` exists and its year is 1999 to 2099.
pub fn has_date(t: LocalTime) -> bool
    ensures { result ≡ has_date t }
{
    date_of(t).is_some()
}

/// Returns the minutes from 1999-12-31T00:00 to `t` on one local clock, without a change to or from
/// daylight time. `None` if `t` does not exist, is earlier, or is after the year 2099.
fn local_minutes(t: LocalTime) -> Option<u32>
    ensures value { result ≡ local_minutes t }
    ensures range { IfSome result (λ shown. shown < 52597440) }
{
    if t.hour > 23 || t.minute > 59 {
        return None;
    }
    let date = date_of(t)?;
    let days = days_since_last_of_1999(date)?;
    Some(days * 1440 + u32::from(t.hour) * 60 + u32::from(t.minute))
}

/// Returns the minute, in UTC, at which a clock of the abbreviation `a` shows the date and time
/// `t`. `None` if `t` does not exist, or if the minute is not in the years 2000 to 2099 of UTC.
#[tactic(auto, unfolding(crate::specs::LocalTimes::minute_shown))]
pub fn minute_shown(a: Abbreviation, t: LocalTime) -> Option<Minute>
    ensures { result ≡ minute_shown a t }
{
    let shown = local_minutes(t)? + 60 * u32::from(a.hours_behind());
    if shown < 1440 {
        return None;
    }
    Minute::new(shown - 1440)
}
