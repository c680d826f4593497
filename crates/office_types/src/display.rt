//! How desks and refusals are printed, in plain words.
use crate::desk::Desk;
use crate::refusal::Refusal;
use hazard_types::{Text, text_of};
use std::error::Error;
use std::fmt;

/// Writes the desk's name.
impl fmt::Display for Desk {
    fn fmt<W: fmt::Write>(&self, f: &mut fmt::Formatter<W>) -> fmt::Result {
        f.pad(text_of(self.bytes()))
    }
}

/// Writes the refusal's code, its name and what is wrong, as in `E7 UnknownZone: the office has no
/// zone MDZ099`.
impl fmt::Display for Refusal {
    fn fmt<W: fmt::Write>(&self, f: &mut fmt::Formatter<W>) -> fmt::Result {
        let (code, name, _status) = self.label();
        write!(f, "{code} {name}: ")?;
        write_call_refusal(self, f)
    }
}

impl Error for Refusal {}

/// Writes what is wrong, in words without the code, for a refusal of an HTTP call (F1 to F6) or of
/// the text of a request (J1 to J3). Any other refusal is left to `write_desk_refusal`.
fn write_call_refusal<W: fmt::Write>(refusal: &Refusal, f: &mut fmt::Formatter<W>) -> fmt::Result {
    match refusal {
        Refusal::BadHead => f.write_str(
            "no head of HTTP/1.0 or 1.1, or its Content-Length is not one number",
        ),
        Refusal::HeadTooLong => f.write_str("the head has more than 8192 bytes or 32 fields"),
        Refusal::NoRoute => f.write_str("there is no such path"),
        Refusal::WrongMethod => f.write_str("the path has another method"),
        Refusal::NoLength => f.write_str("the head has no Content-Length, or a Transfer-Encoding"),
        Refusal::BodyTooLong => f.write_str("the body would have more than 65536 bytes"),
        Refusal::LineTooLong => f.write_str("the line has more than 65536 bytes"),
        Refusal::NotJson => f.write_str("the line is no JSON text"),
        Refusal::WrongShape { field } => write_wrong_shape(field, f),
        _ => write_desk_refusal(refusal, f),
    }
}

/// Writes what is wrong with a field of a request. `field` is its name, `?` for an unknown key, or
/// `.` for a request that is not a JSON object.
fn write_wrong_shape<W: fmt::Write>(field: &Text, f: &mut fmt::Formatter<W>) -> fmt::Result {
    match text_of(field.as_slice()) {
        "." => f.write_str("the line is no JSON object"),
        "?" => f.write_str("the request has a key that it must not have"),
        field => write!(f, "the field `{field}` is missing or wrong"),
    }
}

/// Writes what is wrong, in words without the code, for a refusal about the desk and its numbers
/// (K1 to K4) or the clock (C1). Any other refusal is left to `write_draft_refusal`.
fn write_desk_refusal<W: fmt::Write>(refusal: &Refusal, f: &mut fmt::Formatter<W>) -> fmt::Result {
    match refusal {
        Refusal::UnknownDesk => f.write_str("the office has no such desk"),
        Refusal::Reused { last } => write!(
            f,
            "the desk's last request is number {last}, with another text"
        ),
        Refusal::Stale { last } => write!(
            f,
            "the desk's last request is number {last}, a later one"
        ),
        Refusal::Gap { last } => write!(
            f,
            "the desk's last request is number {last}, and the next was left out"
        ),
        Refusal::ClockOut { minute } => write!(
            f,
            "the clock stands at minute {minute} from 2000 on, which is out of range"
        ),
        _ => write_draft_refusal(refusal, f),
    }
}

/// Writes what is wrong, in words without the code, for a refusal about a draft (E1 to E6). Any
/// other refusal is left to `write_part_refusal`.
fn write_draft_refusal<W: fmt::Write>(refusal: &Refusal, f: &mut fmt::Formatter<W>) -> fmt::Result {
    match refusal {
        Refusal::NoDraft => f.write_str("no draft has this number"),
        Refusal::NotOwner { owner } => { write!(f, "the desk {owner} owns the draft") }
        Refusal::StillActive { free_at } => write!(
            f,
            "the draft is in use, and may be taken at {free_at} or later"
        ),
        Refusal::DraftsFull => f.write_str("there are 64 drafts"),
        Refusal::IntentsFull => f.write_str("the draft has 64 intents"),
        Refusal::NoIntent { place } => { write!(f, "the draft has no intent at place {place}") }
        _ => write_part_refusal(refusal, f),
    }
}

/// Writes what is wrong, in words without the code, for a refusal about what a request names, such
/// as a zone or a hazard (E7 to E14). Any other refusal is left to `write_event_refusal`.
fn write_part_refusal<W: fmt::Write>(refusal: &Refusal, f: &mut fmt::Formatter<W>) -> fmt::Result {
    match refusal {
        Refusal::UnknownZone { zone } => { write!(f, "the office has no zone {zone}") }
        Refusal::UnknownHazard => f.write_str("the desk issues no such hazard"),
        Refusal::WrongZoneKind { zone } => write!(
            f,
            "the hazard is not for zones of the kind of {zone}"
        ),
        Refusal::WrongCategory => f.write_str("the hazard is not of the draft's category"),
        Refusal::BadText { field, at } => {
            let field = text_of(field.as_slice());
            write!(
                f,
                "byte {at} of `{field}` is not printable, or begins `$$` or `&&`"
            )
        }
        Refusal::TextTooLong { field } => {
            let field = text_of(field.as_slice());
            write!(f, "the text `{field}` has more than 4096 bytes")
        }
        Refusal::BadZoneList => f.write_str("there is no zone, one twice, or more than 600"),
        Refusal::NoProduct => f.write_str("no product has this number"),
        _ => write_event_refusal(refusal, f),
    }
}

/// Writes what is wrong, in words without the code, for a refusal about an event of a product (L2
/// to L5, L7 and L11 to L13). Any other refusal is left to `write_intent_refusal`.
fn write_event_refusal<W: fmt::Write>(refusal: &Refusal, f: &mut fmt::Formatter<W>) -> fmt::Result {
    match refusal {
        Refusal::NoEvent { event } => write!(f, "{event} is no open event, or none of the product"),
        Refusal::NotLive { event, zone } => { write!(f, "{event} is not live in {zone}") }
        Refusal::LeftBefore { event, zone } => write!(
            f,
            "{event} has run out in {zone}, and no line has ended it there"
        ),
        Refusal::Twice { event, zone } => { write!(f, "two intents speak of {event} in {zone}") }
        Refusal::BegunMoved { event, zone } => write!(
            f,
            "{event} has begun in {zone}, and cannot begin later"
        ),
        Refusal::SiteMoved { event } => write!(f, "{event} has another site"),
        Refusal::Conflict {
            zone,
            first,
            second,
        } => write!(f, "{first} and {second} would overlap in {zone}"),
        Refusal::NumberHeld { event } => write!(f, "{event} has the next number and is still open"),
        _ => write_intent_refusal(refusal, f),
    }
}

/// Writes what is wrong, in words without the code, for a refusal about the intents of a draft (L1,
/// L6 and L8 to L10). Any other refusal is left to `write_product_refusal`.
fn write_intent_refusal<W: fmt::Write>(
    refusal: &Refusal,
    f: &mut fmt::Formatter<W>,
) -> fmt::Result {
    match refusal {
        Refusal::EmptyDraft => f.write_str("the draft has no intent"),
        Refusal::BadPeriod { place } => write!(
            f,
            "the intent at place {place} begins in the past, or does not end later"
        ),
        Refusal::NoOpenEnd { place } => write!(
            f,
            "the hazard of the intent at place {place} must have an end"
        ),
        Refusal::FloodNeeded { place } => write!(
            f,
            "the hazard of the intent at place {place} must have flood values"
        ),
        Refusal::FloodBarred { place } => write!(
            f,
            "the hazard of the intent at place {place} has no flood values"
        ),
        _ => write_product_refusal(refusal, f),
    }
}

/// Writes what is wrong, in words without the code, for a refusal about a product as a whole or the
/// journal (L14 to L21). For any other refusal it writes nothing.
fn write_product_refusal<W: fmt::Write>(
    refusal: &Refusal,
    f: &mut fmt::Formatter<W>,
) -> fmt::Result {
    match refusal {
        Refusal::NumbersSpent { hazard } => { write!(f, "{hazard} has had 9999 events this year") }
        Refusal::NotLast { last } => write!(f, "the last product of the category is number {last}"),
        Refusal::NothingToCorrect => f.write_str("nothing that the product speaks of is live"),
        Refusal::LettersSpent => f.write_str("the product has had 24 corrections"),
        Refusal::TooManyLines { lines } => write!(
            f,
            "the product would have {lines} lines, more than 2000"
        ),
        Refusal::TooLong { bytes } => write!(
            f,
            "the product would have {bytes} bytes, more than 65536"
        ),
        Refusal::ProductsFull => f.write_str("the journal has 8192 products"),
        Refusal::JournalFull => f.write_str("the journal would have more than 268435456 bytes"),
        // The refusals that the functions above have written.
        _ => Ok(()),
    }
}
