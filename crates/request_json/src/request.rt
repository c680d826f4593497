//! Reads requests and lines of the training office.
ghost use Rattle.std.specs.Prelude.{◌≡◌, ℕ, List, if◌then◌else◌, IfOk, Ok, Err, Result, codes, option_and_then};
ghost use Rattle.hazard_types.specs.Codes.{value_for_code};
ghost use Rattle.hazard_types.specs.Given.{Gives};
ghost use Rattle.hazard_types.specs.Names.{hazard_at};
ghost use Rattle.hazard_types.specs.Tables.{category_rows};
ghost use Rattle.serde_json.specs.Find.{get};
ghost use Rattle.serde_json.specs.View.{view, members_view};
ghost use Rattle.json_parts.specs.Json.{text_at};
ghost use Rattle.request_json.specs.Form.{desk_field, seq_field, verb_field, category_field, number_field, hazard_field, event_field, begin_field, end_field, flood_or_none, flood_field, texts_or_empty, texts_field, event_texts_or_none, event_texts_field, target_field, put_on, issue_part, put_part, event_part, routine_part, draft_in, draft_request, request_in, asked_in, told, asked_of, is_issue, training_issue_in, training_issue_of};
ghost use Rattle.request_json.specs.Keys.{verb_at, all_known};
ghost use Rattle.request_json.specs.Formed.{IsIssuePart, HasForm};

use crate::asked::Asked;
use crate::fields::{
    begin_of, desk_of, each_event_texts, end_of, event_of, flood_of, number_at, seq_of, texts_of,
};
use crate::keys::{Keys, Verb};
use hazard_types::{Begin, Category, End, Event, Flood, Hazard, List, Oom, Or, Text, parse_hazard};
use json_parts::{given, read_json, text_at, wrong, zones_field};
use office_types::{
    Desk, EventPart, EventTexts, PutPart, Refusal, Request, RoutinePart, Target, Texts,
};
use serde_json::{Map, Value};
use std::alloc::Global;

/// Returns the desk named in the field `desk`. Errs with `Or::No` and the field's name if it is
/// missing or wrong.
fn desk_field(alloc: Global, value: &Value) -> Result<Desk, Or<Text>>
    ensures { Gives result (desk_field (view value.now)) }
{
    given(alloc, text_at(value, "desk").and_then(desk_of), "desk")
}

/// Returns the number in the field `seq`, from 1 on. Errs with `Or::No` and the field's name if it
/// is missing or wrong.
fn seq_field(alloc: Global, value: &Value) -> Result<u32, Or<Text>>
    ensures { Gives result (seq_field (view value.now)) }
{
    given(alloc, number_at(value, "seq").and_then(seq_of), "seq")
}

/// Returns the verb that the member `do` is, as `open`, or `None` if it is missing or no verb.
fn verb_of(value: &Value) -> Option<Verb>
    ensures { result ≡ option_and_then verb_at (text_at (codes "do") (view value.now)) }
{
    let word = text_at(value, "do")?;
    Verb::from_word(word)
}

/// Returns the verb in the field `do`. Errs with `Or::No` and the field's name if it is missing or
/// wrong.
fn verb_field(alloc: Global, value: &Value) -> Result<Verb, Or<Text>>
    ensures { Gives result (verb_field (view value.now)) }
{
    given(alloc, verb_of(value), "do")
}

/// Returns the category in the member `category`, as `WSW`, or `None` if it is missing or no
/// category.
fn category_of(value: &Value) -> Option<Category>
    ensures { result
        ≡ option_and_then (value_for_code category_rows)
        (text_at (codes "category") (view value.now)) }
{
    let text = text_at(value, "category")?;
    Category::from_code(text.as_bytes())
}

/// Returns the product category in the field `category`. Errs with `Or::No` and the field's name if
/// it is missing or wrong.
fn category_field(alloc: Global, value: &Value) -> Result<Category, Or<Text>>
    ensures { Gives result (category_field (view value.now)) }
{
    given(alloc, category_of(value), "category")
}

/// Returns the number below 2^32 in the field `key`, which is `draft`, `place` or `product`. Errs
/// with `Or::No` and the field's name if it is missing or wrong.
fn number_field(alloc: Global, value: &Value, key: &str) -> Result<u32, Or<Text>>
    ensures { Gives result (number_field key.now (view value.now)) }
{
    given(alloc, number_at(value, key), key)
}

/// Returns the hazard in the member `hazard`, as `WS.W`, or `None` if it is missing or no hazard.
fn hazard_of(value: &Value) -> Option<Hazard>
    ensures { result ≡ option_and_then hazard_at (text_at (codes "hazard") (view value.now)) }
{
    let text = text_at(value, "hazard")?;
    parse_hazard(text.as_bytes())
}

/// Returns the hazard in the field `hazard`, as `WS.W`. Errs with `Or::No` and the field's name if
/// it is missing or wrong.
fn hazard_field(alloc: Global, value: &Value) -> Result<Hazard, Or<Text>>
    ensures { Gives result (hazard_field (view value.now)) }
{
    given(alloc, hazard_of(value), "hazard")
}

/// Returns the event in the field `event`, as `WS.W.0001.2018`. Errs with `Or::No` and the field's
/// name if it is missing or wrong.
fn event_field(alloc: Global, value: &Value) -> Result<Event, Or<Text>>
    ensures { Gives result (event_field (view value.now)) }
{
    given(alloc, event_of(value), "event")
}

/// Returns the begin in the field `begin`, `now` or a stamp. Errs with `Or::No` and the field's
/// name if it is missing or wrong.
fn begin_field(alloc: Global, value: &Value) -> Result<Begin, Or<Text>>
    ensures { Gives result (begin_field (view value.now)) }
{
    given(alloc, text_at(value, "begin").and_then(begin_of), "begin")
}

/// Returns the end in the field `end`, `ufn` or a stamp. Errs with `Or::No` and the field's name if
/// it is missing or wrong.
fn end_field(alloc: Global, value: &Value) -> Result<End, Or<Text>>
    ensures { Gives result (end_field (view value.now)) }
{
    given(alloc, text_at(value, "end").and_then(end_of), "end")
}

/// Returns the H-VTEC values of the member `flood`, `Some(None)` if there is no such member, or
/// `None` if it is no object of the seven values.
fn flood_or_none(value: &Value) -> Option<Option<Flood>>
    ensures { result ≡ flood_or_none (get (codes "flood") (view value.now)) }
{
    match value.get("flood") {
        None => Some(None),
        Some(found) => match flood_of(found) {
            Some(flood) => Some(Some(flood)),
            None => None,
        },
    }
}

/// Returns the H-VTEC values in the field `flood`, or `Ok(None)` if it is missing. Errs with
/// `Or::No` and the field's name if it is wrong.
fn flood_field(alloc: Global, value: &Value) -> Result<Option<Flood>, Or<Text>>
    ensures { Gives result (flood_field (view value.now)) }
{
    given(alloc, flood_or_none(value), "flood")
}

/// Returns the four texts of the member `texts`, empty ones if there is no such member, or `None`
/// if it is no object, or has an unknown key or a text that is no string.
fn texts_or_empty(alloc: Global, value: &Value) -> Result<Option<Texts>, Oom>
    ensures { IfOk result (λ texts. texts ≡ texts_or_empty (get (codes "texts") (view value.now))) }
{
    match value.get("texts") {
        None => Ok(Some(Texts {
            what: List::new(alloc),
            area: List::new(alloc),
            impacts: List::new(alloc),
            details: List::new(alloc),
        })),
        Some(found) => texts_of(alloc, found),
    }
}

/// Returns the four texts in the field `texts`, empty ones if it is missing. Errs with `Or::No` and
/// the field's name if it is wrong.
fn texts_field(alloc: Global, value: &Value) -> Result<Texts, Or<Text>>
    ensures { Gives result (texts_field (view value.now)) }
{
    let texts = texts_or_empty(alloc, value)?;
    given(alloc, texts, "texts")
}

/// Returns the events with their texts in the member `texts` of a correction, in order, or an empty
/// list if there is no such member. `None` if it is no array, or one of its values is not an object
/// with the members `event` and `texts` and no others, or one of these is wrong.
fn event_texts_or_none(alloc: Global, value: &Value) -> Result<Option<List<EventTexts>>, Oom>
    ensures { IfOk result (λ texts. texts
        ≡ event_texts_or_none (get (codes "texts") (view value.now))) }
{
    match value.get("texts") {
        None => Ok(Some(List::new(alloc))),
        Some(found) => match found.as_array() {
            Some(values) => each_event_texts(alloc, values),
            None => Ok(None),
        },
    }
}

/// Returns the events with their texts in the field `texts` of a correction, in order, or an empty
/// list if it is missing. Errs with `Or::No` and the field's name if it is wrong.
fn event_texts_field(alloc: Global, value: &Value) -> Result<List<EventTexts>, Or<Text>>
    ensures { Gives result (event_texts_field (view value.now)) }
{
    let texts = event_texts_or_none(alloc, value)?;
    given(alloc, texts, "texts")
}

/// Returns what a put is on: a new event of the hazard in the field `hazard`, or the event in the
/// field `event`, which it joins. Errs with `Or::No` and the name of the wrong field, which is
/// `hazard` if both or neither are there.
///
/// Source: docs/DECISIONS.md, "Requests".
fn target_field(alloc: Global, value: &Value) -> Result<Target, Or<Text>>
    ensures { Gives result (target_field (view value.now)) }
{
    match (value.get("hazard"), value.get("event")) {
        (Some(_hazard), None) => Ok(Target::Fresh(hazard_field(alloc, value)?)),
        (None, Some(_event)) => Ok(Target::Join(event_field(alloc, value)?)),
        _ => wrong(alloc, "hazard"),
    }
}

/// Returns the put on `target` from the fields `zones`, `begin`, `end`, `flood` and `texts`, of
/// which `flood` and `texts` may be missing. Errs with `Or::No` and the name of the first of them,
/// in this order, that is wrong or, if it is one of the first three, missing.
#[tactic(auto, unfolding(crate::specs::Form::put_on))]
fn put_on(alloc: Global, target: Target, value: &Value) -> Result<PutPart, Or<Text>>
    ensures { Gives result (put_on target (view value.now)) }
{
    Ok(PutPart {
        target,
        zones: zones_field(alloc, value)?,
        begin: begin_field(alloc, value)?,
        end: end_field(alloc, value)?,
        flood: flood_field(alloc, value)?,
        texts: texts_field(alloc, value)?,
    })
}

/// Returns the put of an `issue`, which opens an event of the hazard in the field `hazard`. Errs
/// with `Or::No` and the name of the first of the fields `hazard`, `zones`, `begin`, `end`, `flood`
/// and `texts`, in this order, that is wrong or missing; the last two may be missing.
#[tactic(auto, unfolding(crate::specs::Form::issue_part))]
fn issue_part(alloc: Global, value: &Value) -> Result<PutPart, Or<Text>>
    ensures { Gives result (issue_part (view value.now)) }
{
    let hazard = hazard_field(alloc, value)?;
    put_on(alloc, Target::Fresh(hazard), value)
}

/// Returns the put of a `put`, which opens an event of the hazard in the field `hazard` or joins
/// the event in the field `event`. Errs with `Or::No` and a field's name: `hazard` if both or
/// neither of these two are there, else the first that is wrong or missing of the one that is
/// there, `zones`, `begin`, `end`, `flood` and `texts`, in this order. The last two may be missing.
#[tactic(auto, unfolding(crate::specs::Form::put_part))]
fn put_part(alloc: Global, value: &Value) -> Result<PutPart, Or<Text>>
    ensures { Gives result (put_part (view value.now)) }
{
    let target = target_field(alloc, value)?;
    put_on(alloc, target, value)
}

/// Returns the event, the zones and the texts of an `end` or a `restate`; the texts are empty if
/// the field `texts` is missing. Errs with `Or::No` and the name of the first of `event`, `zones`
/// and `texts` that is wrong, or missing in the case of the first two.
#[tactic(auto, unfolding(crate::specs::Form::event_part))]
fn event_part(alloc: Global, value: &Value) -> Result<EventPart, Or<Text>>
    ensures { Gives result (event_part (view value.now)) }
{
    let event = event_field(alloc, value)?;
    let zones = zones_field(alloc, value)?;
    let texts = texts_field(alloc, value)?;
    Ok(EventPart {
        event,
        zones,
        texts,
    })
}

/// Returns the hazard, the zones and the texts of a `routine`; the texts are empty if the field
/// `texts` is missing. Errs with `Or::No` and the name of the first of `hazard`, `zones` and
/// `texts` that is wrong, or missing in the case of the first two.
#[tactic(auto, unfolding(crate::specs::Form::routine_part))]
fn routine_part(alloc: Global, value: &Value) -> Result<RoutinePart, Or<Text>>
    ensures { Gives result (routine_part (view value.now)) }
{
    let hazard = hazard_field(alloc, value)?;
    let zones = zones_field(alloc, value)?;
    let texts = texts_field(alloc, value)?;
    Ok(RoutinePart {
        hazard,
        zones,
        texts,
    })
}

/// Returns the request on draft number `draft` from the other fields of the request. Errs with
/// `Or::No` and the name of the first of them that is missing or wrong. `verb` is one that works on
/// a draft; one that does not is taken as `send`.
#[tactic(auto, unfolding(crate::specs::Form::draft_in))]
fn draft_in(alloc: Global, verb: Verb, draft: u32, value: &Value) -> Result<Request, Or<Text>>
    ensures { Gives result (draft_in verb draft (view value.now)) }
{
    match verb {
        Verb::Put => Ok(Request::Put(draft, put_part(alloc, value)?)),
        Verb::End => Ok(Request::Finish(draft, event_part(alloc, value)?)),
        Verb::Restate => Ok(Request::Restate(draft, event_part(alloc, value)?)),
        Verb::Routine => Ok(Request::Routine(draft, routine_part(alloc, value)?)),
        Verb::Drop => Ok(Request::Drop(draft, number_field(alloc, value, "place")?)),
        Verb::Take => Ok(Request::Take(draft)),
        Verb::Discard => Ok(Request::Discard(draft)),
        _ => Ok(Request::Send(draft)),
    }
}

/// Returns the request on a draft from the field `draft` and those that its verb has beside it.
/// Errs with `Or::No` and the name of the first of them that is missing or wrong. `verb` is one
/// that works on a draft; one that does not is taken as `send`.
#[tactic(auto, unfolding(crate::specs::Form::draft_request))]
fn draft_request(alloc: Global, verb: Verb, value: &Value) -> Result<Request, Or<Text>>
    ensures { Gives result (draft_request verb (view value.now)) }
{
    let draft = number_field(alloc, value, "draft")?;
    draft_in(alloc, verb, draft, value)
}

/// Returns the request with this verb from the fields that its kind has beside `desk`, `seq` and
/// `do`. Errs with `Or::No` and the name of the first of them that is missing or wrong.
#[tactic(auto, unfolding(crate::specs::Form::request_in))]
fn request_in(alloc: Global, verb: Verb, value: &Value) -> Result<Request, Or<Text>>
    ensures { Gives result (request_in verb (view value.now)) }
{
    match verb {
        Verb::Open => Ok(Request::Begin(category_field(alloc, value)?)),
        Verb::Issue => Ok(Request::Issue(issue_part(alloc, value)?)),
        Verb::Correct => {
            let product = number_field(alloc, value, "product")?;
            Ok(Request::Correct(product, event_texts_field(alloc, value)?))
        }
        _ => draft_request(alloc, verb, value),
    }
}

/// Returns `read`, the value that was read, if each key of `members` is in the set `keys`. Errs
/// with `Or::No` and `?`, in place of a field's name, if one is not.
fn known<T: Drop>(
    alloc: Global,
    keys: Keys,
    members: &Map<String, Value>,
    read: T,
) -> Result<T, Or<Text>>
    ensures { Gives result (if all_known keys (members_view members.now.entries)
        then Ok read
        else Err (codes "?")) }
{
    if keys.has_each_key(members) {
        Ok(read)
    } else {
        wrong(alloc, "?")
    }
}

/// Returns the request that a JSON value is, with its desk and number. Errs with `Or::No` and `.`
/// if the value is no object, else with the name of the first field that is missing or wrong, of
/// `desk`, `seq`, `do` and then those of the kind of request. If all of these are right and there
/// is an unknown key, it errs with `Or::No` and `?`.
#[tactic(auto, unfolding(crate::specs::Form::asked_in))]
fn asked_in(alloc: Global, value: &Value) -> Result<Asked, Or<Text>>
    ensures { Gives result (asked_in (view value.now)) }
{
    let Some(members) = value.as_object() else {
        return wrong(alloc, ".");
    };
    let desk = desk_field(alloc, value)?;
    let seq = seq_field(alloc, value)?;
    let verb = verb_field(alloc, value)?;
    let request = request_in(alloc, verb, value)?;
    known(alloc, verb.keys(), members, Asked { desk, seq, request })
}

/// Returns the value in `read`, or errs with the refusal `WrongShape` for the field whose name
/// `read` has, which is missing or wrong. Out of memory stays as it is.
fn told<T: Drop>(read: Result<T, Or<Text>>) -> Result<T, Or<Refusal>>
    ensures exact { (answer : Result T (List ℕ)) → Gives read answer → Gives result (told answer) }
    ensures kept { IfOk result (λ found. read ≡ Ok found) }
{
    match read {
        Ok(found) => Ok(found),
        Err(Or::No(field)) => Err(Or::No(Refusal::WrongShape { field })),
        Err(Or::OutOfMemory) => Err(Or::OutOfMemory),
    }
}

/// Parses bytes as a request in JSON, and returns it with its desk and number. Its values are in
/// their ranges, and its texts are UTF-8.
///
/// # Errors
///
/// `NotJson`; `WrongShape` with the first field that is missing or wrong (`?` for an unknown key,
/// `.` for a value that is no object); or out of memory.
///
/// Source: docs/REQUESTS.md, "The requests"; docs/DECISIONS.md, "Requests".
#[tactic(auto, unfolding(crate::specs::Form::asked_of), using(crate::proofs::RequestForms::answers_have_form))]
pub fn read_request(alloc: Global, bytes: &[u8]) -> Result<Asked, Or<Refusal>>
    ensures exact { Gives result (asked_of bytes.now) }
    ensures form { IfOk result HasForm }
{
    match read_json(alloc, bytes)? {
        Some(value) => told(asked_in(alloc, &value)),
        None => Err(Or::No(Refusal::NotJson)),
    }
}

/// Whether the value of the field `do` is `issue`.
fn is_issue(value: &Value) -> bool
    ensures { result ≡ is_issue (text_at (codes "do") (view value.now)) }
{
    match text_at(value, "do") {
        Some(word) => word == "issue",
        None => false,
    }
}

/// Returns the put of an issue without desk and number. Errs with `Or::No` and the name of the
/// first field that is missing or wrong: `.` if the value is no object, `do` if it is no issue, `?`
/// for an unknown key.
#[tactic(auto, unfolding(crate::specs::Form::training_issue_in))]
fn training_issue_in(alloc: Global, value: &Value) -> Result<PutPart, Or<Text>>
    ensures { Gives result (training_issue_in (view value.now)) }
{
    let Some(members) = value.as_object() else {
        return wrong(alloc, ".");
    };
    if !is_issue(value) {
        return wrong(alloc, "do");
    }
    let part = issue_part(alloc, value)?;
    known(alloc, Keys::Training, members, part)
}

/// Returns the put of the issue that a line of the training office is. Such a line is an `issue`
/// request without desk and number, in which `desk` and `seq` are unknown keys.
///
/// # Errors
///
/// Those of `read_request`; the wrong field of a line that is no issue is `do`.
///
/// Source: docs/TRAINING.md.
#[tactic(auto, unfolding(crate::specs::Form::training_issue_of), using(crate::proofs::RequestForms::issues_have_form))]
pub fn read_training_issue(alloc: Global, line: &[u8]) -> Result<PutPart, Or<Refusal>>
    ensures exact { Gives result (training_issue_of line.now) }
    ensures form { IfOk result IsIssuePart }
{
    match read_json(alloc, line)? {
        Some(value) => told(training_issue_in(alloc, &value)),
        None => Err(Or::No(Refusal::NotJson)),
    }
}
