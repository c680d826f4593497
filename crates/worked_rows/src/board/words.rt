//! The words of a script of days.
use hazard_types::{
    Action, Begin, Category, End, Event, Hazard, List, Minute, Or, Zone, actions, categories, find,
    parse_event, parse_hazard, parse_stamp, parse_zone,
};
use office_types::Target;
use std::alloc::Global;

/// The error of a word that the script cannot read.
#[derive(Clone, Copy, Debug, PartialEq, Eq)]
pub struct Unread;

/// Returns the minute of a stamp such as `180103T1530Z` (UTC), or `None` if the word is no stamp.
pub fn minute_of(word: &str) -> Option<Minute> {
    parse_stamp(word.as_bytes())
}

/// Returns the begin that a word gives, `now` or a stamp such as `180103T1530Z`, or `None` if it is
/// neither.
pub fn begin_of(word: &str) -> Option<Begin> {
    if word == "now" {
        return Some(Begin::Now);
    }
    minute_of(word).map(Begin::At)
}

/// Returns the end that a word gives, `ufn` for until further notice or a stamp such as
/// `180103T1530Z`, or `None` if it is neither.
pub fn end_of(word: &str) -> Option<End> {
    if word == "ufn" {
        return Some(End::Ufn);
    }
    minute_of(word).map(End::At)
}

/// Returns the P-VTEC action with this code, as `NEW`, or `None` if there is none.
pub fn action_of(word: &str) -> Option<Action> {
    find(&actions(), word.as_bytes())
}

/// Returns the zone that a word such as `MDZ003` is, or `None` if the word has another form.
pub fn zone_of(word: &str) -> Option<Zone> {
    parse_zone(word.as_bytes())
}

/// Returns the product category with this code, as `WSW`, or `None` if there is none.
pub fn category_of(word: &str) -> Option<Category> {
    find(&categories(), word.as_bytes())
}

/// Returns the hazard that a word such as `WS.W`, a phenomenon and a significance, is, or `None` if
/// the word has another form.
pub fn hazard_of(word: &str) -> Option<Hazard> {
    parse_hazard(word.as_bytes())
}

/// Returns the number that a decimal word is, or `None` if the word is no number below 65,536.
pub fn number_of(word: &str) -> Option<u16> {
    word.parse::<u16>().ok()
}

/// Returns the event that a word such as `WS.W.0001.2018` is, or `None` if the word has another
/// form.
pub fn event_of(word: &str) -> Option<Event> {
    parse_event(word.as_bytes())
}

/// Returns what a put is on: the event that a word is, as `WS.W.0001.2018`, which the put joins, or
/// the hazard that it is, as `WS.W`, of which the put opens an event. `None` if the word is
/// neither.
pub fn target_of(word: &str) -> Option<Target> {
    match event_of(word) {
        Some(event) => Some(Target::Join(event)),
        None => hazard_of(word).map(Target::Fresh),
    }
}

/// Returns the five bytes of a word as the code of a location, or `None` if the word has not five
/// bytes.
pub fn site_of(word: &str) -> Option<[u8; 5]> {
    let [a, b, c, d, e] = word.as_bytes() else {
        return None;
    };
    Some([*a, *b, *c, *d, *e])
}

/// Appends the zones of the state and kind of `first`, from its number to `last`; nothing if `last`
/// is below it. Errs with `Unread` if a number is above 999, which no zone has.
fn push_run(zones: &mut List<Zone>, first: &Zone, last: u16) -> Result<(), Or<Unread>> {
    for number in first.number()..=last {
        let zone = Zone::new(first.state(), first.kind(), number).ok_or(Or::No(Unread))?;
        zones.push(zone)?;
    }
    Ok(())
}

/// Returns the zones that a word gives, in its order: codes and runs of zones with commas between
/// them, as `MDZ003,MDZ010>015`. The decimal number after `>` is that of the last zone of a run, at
/// most 999; a run whose last number is below its first gives no zone. A zone that is given twice
/// is in the list twice.
///
/// # Errors
///
/// - `No` if an item is no zone or no run.
/// - `OutOfMemory`.
pub fn zones_of(alloc: Global, word: &str) -> Result<List<Zone>, Or<Unread>> {
    let mut zones = List::new(alloc);
    for item in word.split(',') {
        match item.split_once('>') {
            Some((first, last)) => {
                let first = parse_zone(first.as_bytes()).ok_or(Or::No(Unread))?;
                let last = number_of(last).ok_or(Or::No(Unread))?;
                push_run(&mut zones, &first, last)?;
            }
            None => {
                let zone = parse_zone(item.as_bytes()).ok_or(Or::No(Unread))?;
                zones.push(zone)?;
            }
        }
    }
    Ok(zones)
}
