//! The keys of the settings, and the values that a document has at them.
ghost use Rattle.std.specs.Prelude.{◌≡◌, option_map, IfOk};
ghost use Rattle.hazard_types.specs.Names.{category_code};
ghost use Rattle.toml.specs.Data.{get_member};
ghost use Rattle.toml.specs.View.{view, table_view};
ghost use Rattle.desk_settings.specs.Keys.{key_name, keys, value_at, text_at, is_missing, missing_key};

use hazard_types::{Category, Oom, Text};
use std::alloc::Global;
use toml::{Table, Value};

/// A key of the document, or of its table `headings`. All keys are needed.
#[derive(Clone, Copy, Debug, PartialEq, Eq)]
pub enum Key {
    Office,
    Site,
    OfficeLine,
    Zone,
    Desks,
    Heading(Category),
    Zones,
}

/// Returns the key that the heading of a category has in the table `headings`, as `WSW`.
fn category_key(category: Category) -> &'static str
    ensures { result.now ≡ category_code category }
{
    match category {
        Category::Wsw => "WSW",
        Category::Npw => "NPW",
        Category::Rfw => "RFW",
        Category::Cfw => "CFW",
        Category::Mww => "MWW",
        Category::Ffa => "FFA",
        Category::Flw => "FLW",
        Category::Fls => "FLS",
    }
}

/// Returns all keys that settings must have, in the order in which faults are looked for: `office`,
/// `site`, `office_line`, `zone`, `desks`, the eight headings in the order of `Category`, and
/// `zones`.
///
/// Source: docs/DECISIONS.md, "Settings" (the order of faults).
#[tactic(auto, unfolding(crate::specs::Keys::keys))]
fn keys() -> [Key; 14]
    ensures { result ≡ keys }
{
    [
        Key::Office,
        Key::Site,
        Key::OfficeLine,
        Key::Zone,
        Key::Desks,
        Key::Heading(Category::Wsw),
        Key::Heading(Category::Npw),
        Key::Heading(Category::Rfw),
        Key::Heading(Category::Cfw),
        Key::Heading(Category::Mww),
        Key::Heading(Category::Ffa),
        Key::Heading(Category::Flw),
        Key::Heading(Category::Fls),
        Key::Zones,
    ]
}

impl Key {
    /// Returns the key as faults name it, as `headings.WSW`.
    ///
    /// # Errors
    ///
    /// Out of memory.
    pub fn name(self, alloc: Global) -> Result<Text, Oom>
        ensures { IfOk result (λ name. name ≡ key_name self) }
    {
        match self {
            Key::Office => Text::from_slice(alloc, b"office"),
            Key::Site => Text::from_slice(alloc, b"site"),
            Key::OfficeLine => Text::from_slice(alloc, b"office_line"),
            Key::Zone => Text::from_slice(alloc, b"zone"),
            Key::Desks => Text::from_slice(alloc, b"desks"),
            Key::Heading(category) => {
                let mut name = Text::from_slice(alloc, b"headings.")?;
                name.extend(category_key(category).as_bytes())?;
                Ok(name)
            }
            Key::Zones => Text::from_slice(alloc, b"zones"),
        }
    }
}

/// Returns the value that a table has at a key, or `None` if there is none.
fn look_up<'a>(table: &'a Table, key: &str) -> Option<&'a Value>
    ensures { option_map (λ v. view v.now) result ≡ get_member key.now (table_view table.now) }
{
    table.get(key)
}

/// Returns the value that the table `headings` of the document `table` has for a category. `None`
/// if there is no such value, or no table `headings`.
fn heading_at(table: &Table, category: Category) -> Option<&Value>
    ensures { option_map (λ v. view v.now) result
        ≡ value_at (Key.Heading category) (table_view table.now) }
{
    match look_up(table, "headings") {
        Some(value) => match value.as_table() {
            Some(headings) => look_up(headings, category_key(category)),
            None => None,
        },
        None => None,
    }
}

/// Returns the value that the document `table` has at a key, or `None` if there is none. The value
/// of a heading is the one in the table `headings`.
pub fn value_at(table: &Table, key: Key) -> Option<&Value>
    ensures { option_map (λ v. view v.now) result ≡ value_at key (table_view table.now) }
{
    match key {
        Key::Office => look_up(table, "office"),
        Key::Site => look_up(table, "site"),
        Key::OfficeLine => look_up(table, "office_line"),
        Key::Zone => look_up(table, "zone"),
        Key::Desks => look_up(table, "desks"),
        Key::Heading(category) => heading_at(table, category),
        Key::Zones => look_up(table, "zones"),
    }
}

/// Returns the string that the document `table` has at a key. `None` if there is no value, or the
/// value is no string.
pub fn text_at(table: &Table, key: Key) -> Option<&str>
    ensures { option_map (λ s. s.now) result ≡ text_at key (table_view table.now) }
{
    match value_at(table, key) {
        Some(value) => value.as_str(),
        None => None,
    }
}

/// Whether the document `table` has no value at a key.
fn is_missing(table: &Table, key: Key) -> bool
    ensures { result ≡ is_missing (table_view table.now) key }
{
    value_at(table, key).is_none()
}

/// Returns the first key, in the order of `keys` (`office`, `site`, `office_line`, `zone`, `desks`,
/// the headings, `zones`), at which the document `table` has no value, or `None` if it has a value
/// at each.
pub fn missing_key(table: &Table) -> Option<Key>
    ensures { result ≡ missing_key (table_view table.now) }
{
    keys().iter().copied().find(|key| is_missing(table, *key))
}
