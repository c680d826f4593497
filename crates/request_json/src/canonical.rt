//! Canonical texts of requests and intents: compact JSON, keys in byte order.
ghost use Rattle.std.specs.Prelude.{◌≡◌, None, IfOk, IfSome, OnOk, map, codes};
ghost use Rattle.office_types.specs.declared.request.Request.TheVariants.{Issue};
ghost use Rattle.office_types.specs.declared.request.Target.TheVariants.{Fresh};
ghost use Rattle.serde_json.specs.View.{view, members_view};
ghost use Rattle.json_parts.specs.Written.{set_text};
ghost use Rattle.request_json.specs.Canonical.{set_source, set_times, write_begin, write_end, zone_data, texts_data, flood_data, event_texts_data, set_flood, set_target, set_zones_texts, set_put, set_event_part, set_routine, set_put_do, set_event_do, set_routine_do, set_intent, intent_data, intent_text, set_correct, set_draft_do, set_drop, set_open, set_request, asked_members, asked_text};

use crate::asked::Asked;
use crate::issues::{bare_issue_text, fresh_hazard_without_flood};
use hazard_types::{
    Begin, Category, End, Flood, Hazard, List, Oom, Text, Zone, hazard_text, stamp, time_text,
    zone_text,
};
use json_parts::{Members, put, set_event_text, set_number, set_text, text_of_members, text_value};
use office_types::{
    Desk, EventPart, EventTexts, Intent, PutPart, Request, RoutinePart, Target, Texts,
};
use serde_json::{Map, Value};
use std::alloc::Global;

/// Sets the member `begin`, to `now` or a stamp such as `180103T1530Z`.
fn write_begin(alloc: Global, members: &mut Members, begin: &Begin) -> Result<(), Oom>
    ensures { OnOk result (members_view members.new.entries
        ≡ write_begin begin.now (members_view members.old.entries)) }
{
    match begin {
        Begin::Now => set_text(alloc, members, "begin", b"now"),
        Begin::At(minute) => set_text(alloc, members, "begin", &stamp(*minute)),
    }
}

/// Sets the member `end`, to `ufn` or a stamp such as `180104T0000Z`.
fn write_end(alloc: Global, members: &mut Members, end: &End) -> Result<(), Oom>
    ensures { OnOk result (members_view members.new.entries
        ≡ write_end end.now (members_view members.old.entries)) }
{
    match end {
        End::Ufn => set_text(alloc, members, "end", b"ufn"),
        End::At(minute) => set_text(alloc, members, "end", &stamp(*minute)),
    }
}

/// Returns the zones as JSON strings, as `MDZ003`, in order.
fn zone_values(alloc: Global, zones: &[Zone]) -> Result<Vec<Value>, Oom>
    ensures { IfOk result (λ values. map view values.items ≡ map zone_data zones.now) }
{
    let mut values = Vec::new(alloc);
    for zone in zones {
        let value = text_value(alloc, &zone_text(zone))?;
        values.push(value)?;
    }
    Ok(values)
}

/// Returns the four texts as a JSON object, empty ones too.
#[tactic(auto, unfolding(crate::specs::Canonical::texts_data))]
fn texts_value(alloc: Global, texts: &Texts) -> Result<Value, Oom>
    ensures { IfOk result (λ value. view value ≡ texts_data texts.now) }
{
    let mut members = Map::new(alloc);
    set_text(alloc, &mut members, "what", texts.what.as_slice())?;
    set_text(alloc, &mut members, "area", texts.area.as_slice())?;
    set_text(alloc, &mut members, "impacts", texts.impacts.as_slice())?;
    set_text(alloc, &mut members, "details", texts.details.as_slice())?;
    Ok(Value::Object(members))
}

/// Sets the member `site`, the code of a location.
fn set_site(alloc: Global, members: &mut Members, site: &[u8; 5]) -> Result<(), Oom>
    ensures { OnOk result (members_view members.new.entries
        ≡ set_text (codes "site") site.now (members_view members.old.entries)) }
{
    set_text(alloc, members, "site", site)
}

/// Sets the members `site`, `severity` and `cause`, the codes of the location, the severity and the
/// cause in H-VTEC values.
fn set_source(alloc: Global, members: &mut Members, flood: &Flood) -> Result<(), Oom>
    ensures { OnOk result (members_view members.new.entries
        ≡ set_source flood.now (members_view members.old.entries)) }
{
    let cause = flood.cause;
    let severity = [flood.severity.letter()];
    set_site(alloc, members, &flood.site)?;
    set_text(alloc, members, "severity", &severity)?;
    set_text(alloc, members, "cause", &cause.letters())
}

/// Sets the members `begin`, `crest` and `end` of H-VTEC values to stamps, or to `000000T0000Z` for
/// `None`.
fn set_times(alloc: Global, members: &mut Members, flood: &Flood) -> Result<(), Oom>
    ensures { OnOk result (members_view members.new.entries
        ≡ set_times flood.now (members_view members.old.entries)) }
{
    set_text(alloc, members, "begin", &time_text(flood.begin))?;
    set_text(alloc, members, "crest", &time_text(flood.crest))?;
    set_text(alloc, members, "end", &time_text(flood.end))
}

/// Returns H-VTEC values as a JSON object of the seven members `site`, `severity`, `cause`,
/// `begin`, `crest`, `end` and `status`.
#[tactic(auto, unfolding(crate::specs::Canonical::flood_data))]
fn flood_value(alloc: Global, flood: &Flood) -> Result<Value, Oom>
    ensures { IfOk result (λ value. view value ≡ flood_data flood.now) }
{
    let mut members = Map::new(alloc);
    set_source(alloc, &mut members, flood)?;
    set_times(alloc, &mut members, flood)?;
    set_text(alloc, &mut members, "status", &flood.status.code())?;
    Ok(Value::Object(members))
}

/// Returns an event and its texts as a JSON object of the members `event` and `texts`.
#[tactic(auto, unfolding(crate::specs::Canonical::event_texts_data))]
fn event_texts_value(alloc: Global, texts: &EventTexts) -> Result<Value, Oom>
    ensures { IfOk result (λ value. view value ≡ event_texts_data texts.now) }
{
    let mut members = Map::new(alloc);
    set_event_text(alloc, &mut members, "event", &texts.event)?;
    let value = texts_value(alloc, &texts.texts)?;
    put(alloc, &mut members, "texts", value)?;
    Ok(Value::Object(members))
}

/// Returns each event and its texts as a JSON object of the members `event` and `texts`, in order.
fn event_texts_values(alloc: Global, list: &[EventTexts]) -> Result<Vec<Value>, Oom>
    ensures { IfOk result (λ values. map view values.items ≡ map event_texts_data list.now) }
{
    let mut values = Vec::new(alloc);
    for texts in list {
        let value = event_texts_value(alloc, texts)?;
        values.push(value)?;
    }
    Ok(values)
}

/// Sets the member `flood` to the object of H-VTEC values, or sets nothing for `None`.
fn set_flood(alloc: Global, members: &mut Members, flood: &Option<Flood>) -> Result<(), Oom>
    ensures { OnOk result (members_view members.new.entries
        ≡ set_flood flood.now (members_view members.old.entries)) }
{
    match flood {
        None => Ok(()),
        Some(flood) => {
            let value = flood_value(alloc, flood)?;
            put(alloc, members, "flood", value)
        }
    }
}

/// Sets the member `hazard` to the hazard of which a put opens an event, as `WS.W`, or the member
/// `event` to the event that a put joins, as `WS.W.0001.2018`.
fn set_target(alloc: Global, members: &mut Members, target: &Target) -> Result<(), Oom>
    ensures { OnOk result (members_view members.new.entries
        ≡ set_target target.now (members_view members.old.entries)) }
{
    match target {
        Target::Fresh(hazard) => set_text(alloc, members, "hazard", &hazard_text(hazard)),
        Target::Join(event) => set_event_text(alloc, members, "event", event),
    }
}

/// Sets the members `zones` and `texts`, the latter to an object of all four texts.
fn set_zones_texts(
    alloc: Global,
    members: &mut Members,
    zones: &[Zone],
    texts: &Texts,
) -> Result<(), Oom>
    ensures { OnOk result (members_view members.new.entries
        ≡ set_zones_texts zones.now texts.now (members_view members.old.entries)) }
{
    let zones = zone_values(alloc, zones)?;
    put(alloc, members, "zones", Value::Array(zones))?;
    let texts = texts_value(alloc, texts)?;
    put(alloc, members, "texts", texts)
}

/// Sets the members of a put without `do`: `hazard` or `event`, `zones`, `texts`, `begin`, `end`,
/// and `flood` if there are H-VTEC values.
#[tactic(auto, unfolding(crate::specs::Canonical::set_put))]
fn set_put(alloc: Global, members: &mut Members, part: &PutPart) -> Result<(), Oom>
    ensures { OnOk result (members_view members.new.entries
        ≡ set_put part.now (members_view members.old.entries)) }
{
    set_target(alloc, members, &part.target)?;
    set_zones_texts(alloc, members, part.zones.as_slice(), &part.texts)?;
    write_begin(alloc, members, &part.begin)?;
    write_end(alloc, members, &part.end)?;
    set_flood(alloc, members, &part.flood)
}

/// Sets the members `event`, `zones` and `texts` of an `end` or a `restate`.
#[tactic(auto, unfolding(crate::specs::Canonical::set_event_part))]
fn set_event_part(alloc: Global, members: &mut Members, part: &EventPart) -> Result<(), Oom>
    ensures { OnOk result (members_view members.new.entries
        ≡ set_event_part part.now (members_view members.old.entries)) }
{
    set_event_text(alloc, members, "event", &part.event)?;
    set_zones_texts(alloc, members, part.zones.as_slice(), &part.texts)
}

/// Sets the members `hazard`, `zones` and `texts` of a `routine`.
#[tactic(auto, unfolding(crate::specs::Canonical::set_routine))]
fn set_routine(alloc: Global, members: &mut Members, part: &RoutinePart) -> Result<(), Oom>
    ensures { OnOk result (members_view members.new.entries
        ≡ set_routine part.now (members_view members.old.entries)) }
{
    let hazard = part.hazard;
    set_text(alloc, members, "hazard", &hazard_text(&hazard))?;
    set_zones_texts(alloc, members, part.zones.as_slice(), &part.texts)
}

/// Sets the member `do` to `word`, which is `issue` or `put`, and the members of the put: `hazard`
/// or `event`, `zones`, `texts`, `begin`, `end`, and `flood` if there are H-VTEC values.
fn set_put_do(alloc: Global, members: &mut Members, word: &str, part: &PutPart) -> Result<(), Oom>
    ensures { OnOk result (members_view members.new.entries
        ≡ set_put_do word.now part.now (members_view members.old.entries)) }
{
    set_text(alloc, members, "do", word.as_bytes())?;
    set_put(alloc, members, part)
}

/// Sets the member `do` to `word`, which is `end` or `restate`, and the members `event`, `zones`
/// and `texts`.
fn set_event_do(
    alloc: Global,
    members: &mut Members,
    word: &str,
    part: &EventPart,
) -> Result<(), Oom>
    ensures { OnOk result (members_view members.new.entries
        ≡ set_event_do word.now part.now (members_view members.old.entries)) }
{
    set_text(alloc, members, "do", word.as_bytes())?;
    set_event_part(alloc, members, part)
}

/// Sets the member `do` to `routine`, and the members `hazard`, `zones` and `texts`.
fn set_routine_do(alloc: Global, members: &mut Members, part: &RoutinePart) -> Result<(), Oom>
    ensures { OnOk result (members_view members.new.entries
        ≡ set_routine_do part.now (members_view members.old.entries)) }
{
    set_text(alloc, members, "do", b"routine")?;
    set_routine(alloc, members, part)
}

/// Sets the members of the request that adds an intent to a draft, without `desk`, `seq` and
/// `draft`.
#[tactic(auto, unfolding(crate::specs::Canonical::set_intent))]
fn set_intent(alloc: Global, members: &mut Members, intent: &Intent) -> Result<(), Oom>
    ensures { OnOk result (members_view members.new.entries
        ≡ set_intent intent.now (members_view members.old.entries)) }
{
    match intent {
        Intent::Put(part) => set_put_do(alloc, members, "put", part),
        Intent::Finish(part) => set_event_do(alloc, members, "end", part),
        Intent::Restate(part) => set_event_do(alloc, members, "restate", part),
        Intent::Routine(part) => set_routine_do(alloc, members, part),
    }
}

/// Returns an intent as a JSON object: the canonical request that adds it to a draft, without
/// `desk`, `seq` and `draft`.
///
/// # Errors
///
/// Out of memory.
#[tactic(auto, unfolding(crate::specs::Canonical::intent_data))]
pub fn intent_value(alloc: Global, intent: &Intent) -> Result<Value, Oom>
    ensures { IfOk result (λ value. view value ≡ intent_data intent.now) }
{
    let mut members = Map::new(alloc);
    set_intent(alloc, &mut members, intent)?;
    Ok(Value::Object(members))
}

/// Returns the canonical text of an intent: the request that adds it to a draft, without `desk`,
/// `seq` and `draft`, as compact JSON with keys in byte order.
///
/// # Errors
///
/// Out of memory.
///
/// Source: docs/REQUESTS.md, "Replies".
#[tactic(auto, using(crate::proofs::CanonicalFloats::intent_clean), unfolding(crate::specs::Canonical::intent_text))]
pub fn intent_text(alloc: Global, intent: &Intent) -> Result<Text, Oom>
    ensures { IfOk result (λ text. text ≡ intent_text intent.now) }
{
    let text = intent_value(alloc, intent)?.to_vec(alloc)?;
    Ok(List::from_vec(text))
}

/// Sets the members `do`, `product` and `texts` of a correction. `product` is the number of the
/// corrected product.
fn set_correct(
    alloc: Global,
    members: &mut Members,
    product: u32,
    texts: &[EventTexts],
) -> Result<(), Oom>
    ensures { OnOk result (members_view members.new.entries
        ≡ set_correct product texts.now (members_view members.old.entries)) }
{
    set_text(alloc, members, "do", b"correct")?;
    set_number(alloc, members, "product", product)?;
    let values = event_texts_values(alloc, texts)?;
    put(alloc, members, "texts", Value::Array(values))
}

/// Sets the members `do`, to `word`, as `take` or `send`, and `draft`, the number of a draft.
fn set_draft_do(alloc: Global, members: &mut Members, word: &str, draft: u32) -> Result<(), Oom>
    ensures { OnOk result (members_view members.new.entries
        ≡ set_draft_do word.now draft (members_view members.old.entries)) }
{
    set_text(alloc, members, "do", word.as_bytes())?;
    set_number(alloc, members, "draft", draft)
}

/// Sets the members `do`, `draft` and `place` of a request that drops the intent at `place`,
/// counted from 0, of a draft.
fn set_drop(alloc: Global, members: &mut Members, draft: u32, place: u32) -> Result<(), Oom>
    ensures { OnOk result (members_view members.new.entries
        ≡ set_drop draft place (members_view members.old.entries)) }
{
    set_draft_do(alloc, members, "drop", draft)?;
    set_number(alloc, members, "place", place)
}

/// Sets the members `do` and `category` of a request that opens a draft.
fn set_open(alloc: Global, members: &mut Members, category: Category) -> Result<(), Oom>
    ensures { OnOk result (members_view members.new.entries
        ≡ set_open category (members_view members.old.entries)) }
{
    set_text(alloc, members, "do", b"open")?;
    set_text(alloc, members, "category", &category.code())
}

/// Sets the members of a request but `desk` and `seq`.
#[tactic(auto, unfolding(crate::specs::Canonical::set_request))]
fn set_request(alloc: Global, members: &mut Members, request: &Request) -> Result<(), Oom>
    ensures { OnOk result (members_view members.new.entries
        ≡ set_request request.now (members_view members.old.entries)) }
{
    match request {
        Request::Issue(part) => set_put_do(alloc, members, "issue", part),
        Request::Begin(category) => set_open(alloc, members, *category),
        Request::Put(draft, part) => {
            set_number(alloc, members, "draft", *draft)?;
            set_put_do(alloc, members, "put", part)
        }
        Request::Finish(draft, part) => {
            set_number(alloc, members, "draft", *draft)?;
            set_event_do(alloc, members, "end", part)
        }
        Request::Restate(draft, part) => {
            set_number(alloc, members, "draft", *draft)?;
            set_event_do(alloc, members, "restate", part)
        }
        Request::Routine(draft, part) => {
            set_number(alloc, members, "draft", *draft)?;
            set_routine_do(alloc, members, part)
        }
        Request::Drop(draft, place) => set_drop(alloc, members, *draft, *place),
        Request::Take(draft) => set_draft_do(alloc, members, "take", *draft),
        Request::Discard(draft) => set_draft_do(alloc, members, "discard", *draft),
        Request::Send(draft) => set_draft_do(alloc, members, "send", *draft),
        Request::Correct(product, texts) => {
            set_correct(alloc, members, *product, texts.as_slice())
        }
    }
}

/// Returns all members of a request's object. `seq` is the number that the desk gives the request.
#[tactic(auto, unfolding(crate::specs::Canonical::asked_members))]
fn asked_members(alloc: Global, desk: &Desk, seq: u32, request: &Request) -> Result<Members, Oom>
    ensures { IfOk result (λ members. members_view members.entries
        ≡ asked_members (record { desk = desk.now; seq = seq; request = request.now })) }
{
    let mut members = Map::new(alloc);
    set_request(alloc, &mut members, request)?;
    set_text(alloc, &mut members, "desk", desk.bytes())?;
    set_number(alloc, &mut members, "seq", seq)?;
    Ok(members)
}

/// Returns the canonical text of any request, compact JSON with keys in byte order, by way of its
/// JSON object. `seq` is the number that the desk gives the request.
#[tactic(auto, using(crate::proofs::CanonicalFloats::asked_no_float), unfolding(crate::specs::Canonical::asked_text))]
fn text_by_members(alloc: Global, desk: &Desk, seq: u32, request: &Request) -> Result<Text, Oom>
    ensures { IfOk result (λ text. text
        ≡ asked_text (record { desk = desk.now; seq = seq; request = request.now })) }
{
    let members = asked_members(alloc, desk, seq, request)?;
    text_of_members(alloc, members)
}

/// Returns the put of an issue and the hazard of the event that it opens, or `None` if the request
/// is no issue, joins an event or has H-VTEC values.
fn bare_issue(request: &Request) -> Option<(&PutPart, Hazard)>
    ensures { IfSome result (λ found. (request.now ≡ Issue found.0.now)
        × (found.0.now.target ≡ Fresh found.1) × (found.0.now.flood ≡ None)) }
{
    match request {
        Request::Issue(part) => match fresh_hazard_without_flood(part) {
            Some(hazard) => Some((part, hazard)),
            None => None,
        },
        _ => None,
    }
}

/// Returns the canonical text of a request: compact JSON, keys in byte order, with all four texts.
/// `seq` is the number that the desk gives the request. Bytes of texts that are not UTF-8 become
/// replacement characters.
///
/// # Errors
///
/// Out of memory.
///
/// Source: docs/DECISIONS.md, "Requests".
pub fn text_of_request(alloc: Global, desk: &Desk, seq: u32, request: &Request) -> Result<Text, Oom>
    ensures { IfOk result (λ text. text
        ≡ asked_text (record { desk = desk.now; seq = seq; request = request.now })) }
{
    match bare_issue(request) {
        Some((part, hazard)) => bare_issue_text(alloc, desk, seq, part, hazard),
        None => text_by_members(alloc, desk, seq, request),
    }
}

/// Returns the canonical text of a request with its desk and number: compact JSON, keys in byte
/// order, with all four texts. Bytes of texts that are not UTF-8 become replacement characters.
///
/// # Errors
///
/// Out of memory.
///
/// Source: docs/DECISIONS.md, "Requests".
pub fn request_text(alloc: Global, asked: &Asked) -> Result<Text, Oom>
    ensures { IfOk result (λ text. text ≡ asked_text asked.now) }
{
    text_of_request(alloc, &asked.desk, asked.seq, &asked.request)
}
