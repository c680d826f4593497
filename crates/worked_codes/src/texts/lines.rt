//! Lines of segments as a script writes them.
use desk_settings::local_zone_in;
use hazard_types::{
    Action, End, Event, LocalZone, Minute, SegLine, actions, find, parse_event, parse_hazard,
    parse_stamp,
};

/// A begin that has passed, or an end until further notice.
const ZEROS: &str = "000000T0000Z";

/// A line of a segment, with the local zone and the minute of its product.
#[derive(Clone, Copy, Debug)]
pub struct Said {
    pub line: SegLine,
    pub zone: LocalZone,
    pub t: Minute,
}

/// Returns the minute of a stamp such as `180103T1530Z`, or `None` if the word is no stamp.
fn minute_of(word: &str) -> Option<Minute> {
    parse_stamp(word.as_bytes())
}

/// Returns the minute of a stamp, `Some(None)` for `000000T0000Z`, a begin that has passed, or
/// `None` if the word is neither.
fn begin_of(word: &str) -> Option<Option<Minute>> {
    if word == ZEROS {
        return Some(None);
    }
    minute_of(word).map(Some)
}

/// Returns the end at a stamp, as `180103T1530Z`, or `End::Ufn`, until further notice, for
/// `000000T0000Z`. It is `None` if the word is neither.
fn end_of(word: &str) -> Option<End> {
    if word == ZEROS {
        return Some(End::Ufn);
    }
    minute_of(word).map(End::At)
}

/// Returns the line of a segment with these values and no H-VTEC values. `begin` is `None` if the
/// begin has passed.
fn line_of(action: Action, event: Event, begin: Option<Minute>, end: End) -> SegLine {
    SegLine {
        action,
        event,
        begin,
        end,
        flood: None,
    }
}

/// Returns the event of a routine line, as `WS.W.0000.2018`, whose event tracking number is 0, or
/// `None` if the word is not such an event.
fn routine_of(word: &str) -> Option<Event> {
    let (hazard, year) = word.split_once(".0000.")?;
    let hazard = parse_hazard(hazard.as_bytes())?;
    let year = year.parse::<u16>().ok()?;
    Some(Event {
        hazard,
        etn: 0,
        year,
    })
}

/// Returns the event of a word, as `WS.W.0001.2018`, or `None` if the word is no event. The event
/// tracking number may be 0000.
fn event_of(word: &str) -> Option<Event> {
    match parse_event(word.as_bytes()) {
        Some(event) => Some(event),
        None => routine_of(word),
    }
}

/// Returns the segment's line, the local zone and the product's minute of the words `ACTION EVENT
/// BEGIN END ZONE STAMP`, or `None` if they are not such words. BEGIN and END are stamps or
/// `000000T0000Z`, for a begin that has passed and an end until further notice.
pub fn read_line(words: &str) -> Option<Said> {
    let mut words = words.split_whitespace();
    let action = find(&actions(), words.next()?.as_bytes())?;
    let event = event_of(words.next()?)?;
    let begin = begin_of(words.next()?)?;
    let end = end_of(words.next()?)?;
    let zone = local_zone_in(words.next()?)?;
    let t = minute_of(words.next()?)?;
    Some(Said {
        line: line_of(action, event, begin, end),
        zone,
        t,
    })
}
