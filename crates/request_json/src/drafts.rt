//! The texts of drafts.
ghost use Rattle.std.specs.Prelude.{◌≡◌, IfOk, map};
ghost use Rattle.serde_json.specs.View.{view, members_view};
ghost use Rattle.request_json.specs.Canonical.{intent_data};
ghost use Rattle.request_json.specs.Replies.{draft_members, draft_text};

use crate::canonical::intent_value;
use hazard_types::{Oom, Text, stamp};
use json_parts::{Members, put, set_number, set_text, text_of_members};
use office_types::{Draft, Intent};
use serde_json::{Map, Value};
use std::alloc::Global;

/// Returns the intents as JSON objects, in order: each is the canonical request that adds the
/// intent to a draft, without `desk`, `seq` and `draft`.
fn intent_values(alloc: Global, intents: &[Intent]) -> Result<Vec<Value>, Oom>
    ensures { IfOk result (λ values. map view values.items ≡ map intent_data intents.now) }
{
    let mut values = Vec::new(alloc);
    for intent in intents {
        let value = intent_value(alloc, intent)?;
        values.push(value)?;
    }
    Ok(values)
}

/// Returns the members of a draft's object: `category`, `draft`, `intents`, `owner` and `touched`.
#[tactic(auto, unfolding(crate::specs::Replies::draft_members))]
fn draft_members(alloc: Global, draft: &Draft) -> Result<Members, Oom>
    ensures { IfOk result (λ members. members_view members.entries ≡ draft_members draft.now) }
{
    let mut members = Map::new(alloc);
    set_number(alloc, &mut members, "draft", draft.id)?;
    set_text(alloc, &mut members, "category", &draft.category.code())?;
    set_text(alloc, &mut members, "owner", draft.owner.bytes())?;
    set_text(alloc, &mut members, "touched", &stamp(draft.touched))?;
    let intents = intent_values(alloc, draft.intents.as_slice())?;
    put(alloc, &mut members, "intents", Value::Array(intents))?;
    Ok(members)
}

/// Returns a draft as compact JSON, keys in byte order: its category, number, intents, owner and
/// the stamp of the minute at which it was last touched. Each intent is the canonical request that
/// adds it to the draft, without `desk`, `seq` and `draft`.
///
/// # Errors
///
/// Out of memory.
///
/// Source: docs/REQUESTS.md, "Replies".
#[tactic(auto, using(crate::proofs::CanonicalFloats::draft_no_float), unfolding(crate::specs::Replies::draft_text))]
pub fn draft_text(alloc: Global, draft: &Draft) -> Result<Text, Oom>
    ensures { IfOk result (λ text. text ≡ draft_text draft.now) }
{
    let members = draft_members(alloc, draft)?;
    text_of_members(alloc, members)
}
