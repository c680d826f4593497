//! Whether a product has no second line of an event and zone, read off its parts.

ghost use Rattle.std.specs.Prelude.{◌≡◌, not, true, [], None, IfOk, OnOk};
ghost use Rattle.std.specs.BTreeMap.{is_at};
ghost use Rattle.std.specs.BTreeSet.{insert_key};
ghost use Rattle.std.specs.List.{AllByRecursion, list_any};
ghost use Rattle.hazard_types.specs.Orders.{by_event};
ghost use Rattle.row_index.specs.Apart.{all_rise, is_after_last_zone, last_zone, zones_rise, Spoke};
ghost use Rattle.row_index.specs.Risen.{seats_of, IsFree};
ghost use Rattle.row_index.specs.Verdicts.{lines_in, said_at, said_in, AreFirst, HaveOwnEvents};
ghost use Rattle.row_index.specs.declared.verdicts.Part.{Part as PartValue};

use crate::look::in_zone;
use crate::parts::EventKey;
use crate::spoken::SeenKeys;
use crate::verdicts::Part;
use event_life::is_routine;
use hazard_types::{Event, Line, Oom, Zone};
use std::alloc::Global;
use std::collections::BTreeSet;

/// Whether `zone` comes after `last` in the order of zones; true if `last` is `None`.
fn is_after_last_zone(last: &Option<Zone>, zone: &Zone) -> bool
    ensures { result ≡ is_after_last_zone last.now zone.now }
{
    match last {
        Some(last) => last.cmp(zone).is_lt(),
        None => true,
    }
}

/// Whether the zones strictly ascend, and the first comes after `last` if that is not `None`.
/// `last` becomes the last of `zones`, or on `false` the one before the first that is out of order;
/// if there is no such zone, it stays as it is.
fn zones_rise(last: &mut Option<Zone>, zones: &[Zone]) -> bool
    ensures rise { result ≡ zones_rise last.old zones.now }
    ensures last { result ≡ true → last.new ≡ last_zone last.old zones.now }
{
    for zone in zones {
        if !is_after_last_zone(last, zone) {
            return false;
        }
        *last = Some(*zone);
    }
    true
}

/// Whether the zones of all parts, part after part, strictly ascend.
fn all_rise(parts: &[Part<'_>]) -> bool
    ensures { result ≡ all_rise None parts.now }
{
    let mut last = None;
    for part in parts {
        if !zones_rise(&mut last, part.zones) {
            return false;
        }
    }
    true
}

/// Adds `event` to the set and returns whether it was not there before.
fn note_event(events: &mut BTreeSet<EventKey>, event: &Event) -> Result<bool, Oom>
    ensures new { IfOk result
        (λ new. new ≡ not (list_any (is_at (by_event event.now)) events.old.keys)) }
    ensures keys { OnOk result (events.new.keys ≡ insert_key by_event events.old.keys event.now) }
{
    let new = events.insert(EventKey { event: *event })?;
    Ok(new)
}

/// Whether no two of the lines have the same event.
fn has_own_events(alloc: Global, lines: &[Line]) -> Result<bool, Oom>
    ensures { IfOk result (λ own. own ≡ true → HaveOwnEvents lines.now) }
{
    if lines.len() < 2 {
        return Ok(true);
    }
    let mut events = BTreeSet::new(alloc);
    for line in lines {
        let new = note_event(&mut events, &line.event)?;
        if !new {
            return Ok(false);
        }
    }
    Ok(true)
}

/// Whether in each part no two lines have the same event.
fn have_own_events(alloc: Global, parts: &[Part<'_>]) -> Result<bool, Oom>
    ensures { IfOk result
        (λ own. own ≡ true → AllByRecursion (λ (p : PartValue). HaveOwnEvents p.lines) parts.now) }
{
    for part in parts {
        let own = has_own_events(alloc, part.lines.as_slice())?;
        if !own {
            return Ok(false);
        }
    }
    Ok(true)
}

/// Whether no line has a key (its event, in `zone`) that is in `spoken` or that an earlier one of
/// `lines` other than ROU has. Adds the keys of the lines other than ROU to `spoken`; on `false`
/// only those before the first line whose key was there.
fn mark_zone_seen(spoken: &mut SeenKeys, zone: &Zone, lines: &[Line]) -> Result<bool, Oom>
    requires { IsFree spoken.old.last spoken.old.rising.items }
    ensures first { IfOk result (λ first. first ≡ true
        → Spoke (seats_of spoken.old.rising.items spoken.old.others.keys)
        (seats_of spoken.new.rising.items spoken.new.others.keys) (said_at lines.now zone.now)) }
    ensures free { OnOk result (IsFree spoken.new.last spoken.new.rising.items) }
{
    for line in lines {
        let second = spoken.mark_seen(!is_routine(&line.action), &in_zone(line, zone))?;
        if second {
            return Ok(false);
        }
    }
    Ok(true)
}

/// Whether no line of the part, in any zone of the part, has a key (zone and event) that is in
/// `spoken` or that an earlier line of the part other than ROU has. Adds the keys of the lines
/// other than ROU to `spoken`, zone by zone; on `false` only those before the first line whose key
/// was there.
fn mark_part_seen(spoken: &mut SeenKeys, part: &Part<'_>) -> Result<bool, Oom>
    requires { IsFree spoken.old.last spoken.old.rising.items }
    ensures first { IfOk result (λ first. first ≡ true
        → Spoke (seats_of spoken.old.rising.items spoken.old.others.keys)
        (seats_of spoken.new.rising.items spoken.new.others.keys) (said_in part.now)) }
    ensures free { OnOk result (IsFree spoken.new.last spoken.new.rising.items) }
{
    for zone in part.zones {
        let first = mark_zone_seen(spoken, zone, part.lines.as_slice())?;
        if !first {
            return Ok(false);
        }
    }
    Ok(true)
}

/// Whether no line of the parts, in any zone of its part, has the zone and event of an earlier line
/// of the parts that is not ROU.
fn none_second(alloc: Global, parts: &[Part<'_>]) -> Result<bool, Oom>
    ensures { IfOk result (λ first. first ≡ true → AreFirst [] (lines_in parts.now)) }
{
    let mut spoken = SeenKeys::new(alloc);
    for part in parts {
        let first = mark_part_seen(&mut spoken, part)?;
        if !first {
            return Ok(false);
        }
    }
    Ok(true)
}

/// Whether no line of the parts, in any zone of its part, has the zone and event of an earlier line
/// that is not ROU, and no two lines of one part have the same event.
///
/// # Errors
///
/// Out of memory.
pub fn are_apart(alloc: Global, parts: &[Part<'_>]) -> Result<bool, Oom>
    ensures first { IfOk result (λ apart. apart ≡ true → AreFirst [] (lines_in parts.now)) }
    ensures events { IfOk result (λ apart.
        apart ≡ true → AllByRecursion (λ (p : PartValue). HaveOwnEvents p.lines) parts.now) }
{
    let own = have_own_events(alloc, parts)?;
    if !own {
        return Ok(false);
    }
    if all_rise(parts) {
        return Ok(true);
    }
    none_second(alloc, parts)
}
