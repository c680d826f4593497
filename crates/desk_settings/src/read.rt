//! Reads settings from a TOML document.
ghost use Rattle.std.specs.Prelude.{◌≡◌, Some, None, IfOk, Err, Ok};
ghost use Rattle.hazard_types.specs.Given.{Gives};
ghost use Rattle.toml.specs.View.{table_view};
ghost use Rattle.desk_settings.specs.Reading.{has_twice, fields_in, settings_in, table_of, settings_of};
ghost use Rattle.desk_settings.specs.AreSettings.{AreSettings};

use crate::fault::SettingsFault;
use crate::fields::{
    desks_field, headings_field, line_field, office_field, site_field, zone_field, zones_field,
};
use crate::keys::{Key, missing_key};
use crate::settings::{Settings, is_among};
use hazard_types::Or;
use office_types::Desk;
use std::alloc::Global;
use toml::Table;

/// The greatest length of a document, in bytes.
const MOST: usize = 1_048_576;

/// Whether a desk is in the list twice.
fn has_twice(desks: &[Desk]) -> bool
    ensures { result ≡ has_twice desks.now }
{
    for (i, desk) in desks.iter().enumerate() {
        if is_among(desk, &desks[i + 1..]) {
            return true;
        }
    }
    false
}

/// Returns the table of a TOML document. Errs with `NotToml` if the bytes are not UTF-8 or no TOML
/// document, or out of memory.
fn read_table(alloc: Global, bytes: &[u8]) -> Result<Table, Or<SettingsFault>>
    ensures ok { IfOk result (λ table. table_of bytes.now ≡ Some (table_view table)) }
    ensures refused { (fault : SettingsFault) →
        result ≡ Err (Or.No fault) → table_of bytes.now ≡ None }
    ensures named { (fault : SettingsFault) →
        result ≡ Err (Or.No fault) → fault ≡ SettingsFault.NotToml }
{
    match toml::table_from_slice(alloc, bytes) {
        Ok(table) => Ok(table),
        Err(error) => {
            if error.is_memory() {
                Err(Or::OutOfMemory)
            } else {
                Err(Or::No(SettingsFault::NotToml))
            }
        }
    }
}

/// Returns the settings that the values of the document `table` give. Errs with `BadValue` of the
/// first key, in the order `office`, `site`, `office_line`, `zone`, `desks`, headings, `zones`,
/// whose value is missing or does not have its form, then with `Twice` if a desk is named twice, or
/// out of memory.
#[tactic(auto, unfolding(crate::specs::Reading::fields_in))]
fn fields_in(alloc: Global, table: &Table) -> Result<Settings, Or<SettingsFault>>
    ensures { Gives result (fields_in (table_view table.now)) }
{
    let office = office_field(alloc, table)?;
    let site = site_field(alloc, table)?;
    let office_line = line_field(alloc, table)?;
    let zone = zone_field(alloc, table)?;
    let desks = desks_field(alloc, table)?;
    let headings = headings_field(alloc, table)?;
    let zones = zones_field(alloc, table)?;
    if has_twice(desks.as_slice()) {
        let key = Key::Desks.name(alloc)?;
        return Err(Or::No(SettingsFault::Twice { key }));
    }
    Ok(Settings {
        office,
        site,
        office_line,
        zone,
        desks,
        headings,
        zones,
        any_zone: false,
    })
}

/// Returns the settings of the document `table`. Errs with the first of these faults, or out of
/// memory: `Missing` with the first key that is not there, `BadValue` with the first key whose
/// value does not have its form, and `Twice` if a desk is named twice. Keys are looked at in the
/// order `office`, `site`, `office_line`, `zone`, `desks`, headings, `zones`.
#[tactic(auto, unfolding(crate::specs::Reading::settings_in))]
fn settings_in(alloc: Global, table: &Table) -> Result<Settings, Or<SettingsFault>>
    ensures { Gives result (settings_in (table_view table.now)) }
{
    if let Some(key) = missing_key(table) {
        let key = key.name(alloc)?;
        return Err(Or::No(SettingsFault::Missing { key }));
    }
    fields_in(alloc, table)
}

/// Parses the settings of an office from a TOML document in UTF-8. Other keys and the order of keys
/// are ignored.
///
/// # Errors
///
/// The first of these faults, in this order, or out of memory:
///
/// - `TooLong` for more than 1,048,576 bytes.
/// - `NotToml` for bytes that are no TOML document.
/// - `Missing` with the first key that is not there.
/// - `BadValue` with the first key whose value does not have its form.
/// - `Twice` if a desk is named twice.
///
/// Source: docs/SETTINGS.md, "Faults"; docs/DECISIONS.md, "Settings".
#[tactic(auto, unfolding(crate::specs::Reading::settings_of))]
pub fn read_settings(alloc: Global, bytes: &[u8]) -> Result<Settings, Or<SettingsFault>>
    ensures value { Gives result (settings_of bytes.now) }
    ensures forms { IfOk result AreSettings }
{
    if bytes.len() > MOST {
        return Err(Or::No(SettingsFault::TooLong));
    }
    let table = read_table(alloc, bytes)?;
    settings_in(alloc, &table)
}
