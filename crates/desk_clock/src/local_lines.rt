//! Writes local lines.
ghost use Rattle.std.specs.Prelude.{◌≡◌, ◌<◌, ◌≤◌, ◌+◌, ◌-◌, ◌*◌, ◌++◌, IfOk, OnOk};
ghost use Rattle.desk_clock.specs.Abbreviations.{hours_behind};
ghost use Rattle.desk_clock.specs.LocalTimes.{shown_at};
ghost use Rattle.desk_clock.specs.LocalText.{one_or_two, clock_hour, half_day, local_line_without_year, line_of, local_short_of, local_line_of};

use crate::abbreviations::Abbreviation;
use crate::local_times::{local_time, weekday};
use crate::names::{month_name, weekday_name};
use crate::zones::abbreviation_at;
use hazard_types::{LocalZone, Minute, Oom, Text};
use std::alloc::Global;

/// Appends `n`, which is below 100, in decimal digits without a leading zero.
fn push_number(text: &mut Text, n: u8) -> Result<(), Oom>
    requires { n < 100 }
    ensures { OnOk result (text.new ≡ text.old ++ one_or_two n) }
{
    if n < 10 {
        text.extend(&[b'0' + n])
    } else {
        text.extend(&[b'0' + n / 10, b'0' + n % 10])
    }
}

/// Returns the hour that a clock of twelve hours shows, 1 to 12, at the hour of the day `hour`, 0
/// to 23: 12 for 0 and for 12.
fn clock_hour(hour: u8) -> u8
    ensures value { result ≡ clock_hour hour }
    ensures range { result ≤ 12 }
{
    match hour % 12 {
        0 => 12,
        hour => hour,
    }
}

/// Returns `AM` for an hour of the day before 12, else `PM`.
fn half_day(hour: u8) -> &'static [u8]
    ensures { result.now ≡ half_day hour }
{
    if hour < 12 { b"AM" } else { b"PM" }
}

/// Returns the local time at `m` on a clock of abbreviation `a`, in minutes since 1999-12-31T00:00
/// on that clock.
fn shown_at(a: Abbreviation, m: Minute) -> u32
    ensures value { result ≡ shown_at a m }
    ensures range { result < 52597440 }
{
    m.get() + 1440 - 60 * u32::from(a.hours_behind())
}

/// Returns the local line without its year, as `1030 AM EST Wed Jan 3`. `a` is the abbreviation
/// that it has, and `shown` its local time in minutes since 1999-12-31T00:00 on that clock.
#[tactic(auto, unfolding(crate::specs::LocalText::local_line_without_year))]
fn local_line_without_year(alloc: Global, a: Abbreviation, shown: u32) -> Result<Text, Oom>
    requires { shown < 52597440 }
    ensures { IfOk result (λ text. text ≡ local_line_without_year a shown) }
{
    let t = local_time(shown);
    let mut text = Text::new(alloc);
    push_number(&mut text, clock_hour(t.hour))?;
    text.extend(&[b'0' + t.minute / 10, b'0' + t.minute % 10, b' '])?;
    text.extend(half_day(t.hour))?;
    text.extend(b" ")?;
    text.extend(a.letters())?;
    text.extend(b" ")?;
    text.extend(&weekday_name(weekday(shown)))?;
    text.extend(b" ")?;
    text.extend(&month_name(t.month))?;
    text.extend(b" ")?;
    push_number(&mut text, t.day)?;
    Ok(text)
}

/// Returns the local line of `m` in the zone `z`, as `1030 AM EST Wed Jan 3 2018`. Hour and day
/// have no leading zero, and no line end follows.
///
/// # Errors
///
/// Out of memory.
///
/// Source: NWS Instruction 10-1701, Mass News Disseminator header: date and time line.
#[tactic(auto, unfolding(crate::specs::LocalText::local_line_of, crate::specs::LocalText::line_of))]
pub fn local_line(alloc: Global, z: LocalZone, m: Minute) -> Result<Text, Oom>
    ensures { IfOk result (λ text. text ≡ local_line_of z m) }
{
    let a = abbreviation_at(z, m);
    let shown = shown_at(a, m);
    let mut text = local_line_without_year(alloc, a, shown)?;
    let year = local_time(shown).year;
    text.extend(&[
        b' ',
        b'0' + (year / 1000) as u8,
        b'0' + (year / 100 % 10) as u8,
        b'0' + (year / 10 % 10) as u8,
        b'0' + (year % 10) as u8,
    ])?;
    Ok(text)
}

/// Returns the local line of `m` in the zone `z` without its year, as `1030 AM EST Wed Jan 3`.
///
/// # Errors
///
/// Out of memory.
#[tactic(auto, unfolding(crate::specs::LocalText::local_short_of))]
pub fn local_short(alloc: Global, z: LocalZone, m: Minute) -> Result<Text, Oom>
    ensures { IfOk result (λ text. text ≡ local_short_of z m) }
{
    let a = abbreviation_at(z, m);
    local_line_without_year(alloc, a, shown_at(a, m))
}
