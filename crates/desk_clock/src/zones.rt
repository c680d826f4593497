//! The time zones of offices: their rules, and the abbreviation of a minute.
ghost use Rattle.std.specs.Prelude.{◌≡◌, ◌<◌, ℤ, IsSome};
ghost use Rattle.jiff.specs.Placed.{IsPosixZone};
ghost use Rattle.jiff_tz.specs.PosixReader.{read_whole};
ghost use Rattle.jiff_tz.specs.Zone.{offset_at as jiff_offset};
ghost use Rattle.jiff_tz.specs.declared.timezone.TimeZone.{TimeZone as JiffZone};
ghost use Rattle.desk_clock.specs.Rules.{text_offset};
ghost use Rattle.desk_clock.specs.Zones.{rule_text, standard, daylight, offset_of, abbreviation_at};
ghost use Rattle.hazard_types.specs.declared.codes.LocalZone.{LocalZone as Zone};

use crate::abbreviations::Abbreviation;
use hazard_types::{LocalZone, Minute};
use jiff::Timestamp;
use jiff::tz::TimeZone;

/// The time of a zone.
#[derive(Drop)]
struct ZoneTime {
    /// The POSIX rule, which the desk uses for all years.
    rule: &'static str,
    /// The abbreviation of standard time.
    standard: Abbreviation,
    /// The abbreviation of daylight time, if the zone has it.
    daylight: Option<Abbreviation>,
}

/// Returns the POSIX rule of a zone, its abbreviation for standard time, and the one for daylight
/// time if the zone has daylight time.
///
/// Source: docs/SETTINGS.md, "Settings" (key `zone`).
fn time_of(zone: LocalZone) -> ZoneTime
    ensures rule { result.rule.now ≡ rule_text zone }
    ensures standard { result.standard ≡ standard zone }
    ensures daylight { result.daylight ≡ daylight zone }
{
    let (rule, standard, daylight) = match zone {
        LocalZone::Atlantic => ("AST4", Abbreviation::Ast, None),
        LocalZone::Eastern => (
            "EST5EDT,M3.2.0,M11.1.0",
            Abbreviation::Est,
            Some(Abbreviation::Edt),
        ),
        LocalZone::Central => (
            "CST6CDT,M3.2.0,M11.1.0",
            Abbreviation::Cst,
            Some(Abbreviation::Cdt),
        ),
        LocalZone::Mountain => (
            "MST7MDT,M3.2.0,M11.1.0",
            Abbreviation::Mst,
            Some(Abbreviation::Mdt),
        ),
        LocalZone::Arizona => ("MST7", Abbreviation::Mst, None),
        LocalZone::Pacific => (
            "PST8PDT,M3.2.0,M11.1.0",
            Abbreviation::Pst,
            Some(Abbreviation::Pdt),
        ),
        LocalZone::Alaska => (
            "AKST9AKDT,M3.2.0,M11.1.0",
            Abbreviation::Akst,
            Some(Abbreviation::Akdt),
        ),
        LocalZone::Hawaii => ("HST10", Abbreviation::Hst, None),
        LocalZone::Utc => ("UTC0", Abbreviation::Utc, None),
    };
    ZoneTime {
        rule,
        standard,
        daylight,
    }
}

/// Returns how far a clock with the POSIX rule `text` is ahead of UTC at an instant, in seconds:
/// negative west of Greenwich. 0 if `text` is no such rule.
fn offset_by(text: &str, instant: Timestamp) -> i32
    ensures { result ≡ text_offset text.now instant.nanosecond }
{
    match TimeZone::posix(text) {
        Ok(zone) => zone.to_offset(instant).seconds(),
        Err(_) => 0,
    }
}

/// Returns how far the clock of a zone is ahead of UTC at `m`, in seconds: negative for the zones
/// west of Greenwich.
#[tactic(auto, unfolding(crate::specs::Zones::offset_of))]
fn offset_at(zone: LocalZone, m: Minute) -> i32
    ensures { result ≡ offset_of zone m }
{
    match Timestamp::from_second(946_684_800 + i64::from(m.get()) * 60) {
        Ok(instant) => offset_by(time_of(zone).rule, instant),
        Err(_) => 0,
    }
}

/// Returns the abbreviation of a zone's local time at `m`. It is that of daylight time if the
/// zone's rule gives the offset of daylight time at `m`, else that of standard time.
///
/// Source: docs/DECISIONS.md, "Forms" (the calendar).
pub fn abbreviation_at(zone: LocalZone, m: Minute) -> Abbreviation
    ensures { result ≡ abbreviation_at zone m }
{
    let time = time_of(zone);
    match time.daylight {
        Some(summer) if offset_at(zone, m) == -3600 * i32::from(summer.hours_behind()) => summer,
        _ => time.standard,
    }
}

/// The POSIX rule of every zone can be parsed. So the offset of a zone is never the 0 that stands
/// for a text that is no rule.
pub fn rules_are_read()
    ensures { (z : Zone) → IsSome (read_whole (rule_text z)) }
{}

/// The offset of a zone at an instant is the one that `jiff` returns for the zone's rule.
pub fn offsets_are_jiffs()
    ensures { (z : Zone) (read : JiffZone) (instant : ℤ) →
        IsPosixZone (rule_text z) read →
        jiff_offset read instant ≡ text_offset (rule_text z) instant }
{}
