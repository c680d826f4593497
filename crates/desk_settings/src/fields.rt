//! Reads each field of the settings from its value.
ghost use Rattle.std.specs.Prelude.{◌≡◌, option_map, option_and_then, IfOk, Err};
ghost use Rattle.hazard_types.specs.Given.{Gives};
ghost use Rattle.toml.specs.Data.{as_str};
ghost use Rattle.toml.specs.View.{view, items_view, table_view};
ghost use Rattle.desk_settings.specs.Keys.{key_name};
ghost use Rattle.desk_settings.specs.Reading.{zone_name_in, names_of, desks_in, zone_pairs, in_order, zones_in, office_field, site_field, line_field, zone_field, desks_field, heading_field, headings_field, zones_field};
ghost use Rattle.desk_settings.specs.declared.fault.SettingsFault.TheVariants.{BadValue};

use crate::fault::SettingsFault;
use crate::forms::{is_office_line, is_zone_name, local_zone_in, office_in, parse_ttaaii, site_in};
use crate::keys::{Key, text_at, value_at};
use hazard_types::{Category, List, LocalZone, Oom, Or, Text, Zone, parse_zone};
use office_types::Desk;
use std::alloc::Global;
use toml::{Table, Value};

/// The greatest number of desks.
const DESKS_MOST: usize = 64;

/// The greatest number of zones.
const ZONES_MOST: usize = 2_000;

/// Returns `Err` in every case: `BadValue` with the name of `key`, or out of memory.
fn bad_value<T>(alloc: Global, key: Key) -> Result<T, Or<SettingsFault>>
    ensures { Gives result (Err (BadValue (key_name key))) }
{
    let key = key.name(alloc)?;
    Err(Or::No(SettingsFault::BadValue { key }))
}

/// Returns the office's code, four characters of A-Z and 0-9 as `KLWX`, which is the value of the
/// key `office` of the document `table`. A value of another form and a missing key are both
/// `BadValue`.
///
/// # Errors
///
/// `BadValue` of its key; or out of memory.
pub fn office_field(alloc: Global, table: &Table) -> Result<[u8; 4], Or<SettingsFault>>
    ensures { Gives result (office_field (table_view table.now)) }
{
    match text_at(table, Key::Office).and_then(|text| office_in(text.as_bytes())) {
        Some(office) => Ok(office),
        None => bad_value(alloc, Key::Office),
    }
}

/// Returns the site, three characters of A-Z and 0-9 as `LWX`, which is the value of the key `site`
/// of the document `table`. A value of another form and a missing key are both `BadValue`.
///
/// # Errors
///
/// `BadValue` of its key; or out of memory.
pub fn site_field(alloc: Global, table: &Table) -> Result<[u8; 3], Or<SettingsFault>>
    ensures { Gives result (site_field (table_view table.now)) }
{
    match text_at(table, Key::Site).and_then(|text| site_in(text.as_bytes())) {
        Some(site) => Ok(site),
        None => bad_value(alloc, Key::Site),
    }
}

/// Returns the line below a product's name, which is the value of the key `office_line` of the
/// document `table`: 1 to 66 printable characters without a digit, the first a letter. A value of
/// another form and a missing key are both `BadValue`.
///
/// # Errors
///
/// `BadValue` of its key; or out of memory.
pub fn line_field(alloc: Global, table: &Table) -> Result<Text, Or<SettingsFault>>
    ensures { Gives result (line_field (table_view table.now)) }
{
    match text_at(table, Key::OfficeLine) {
        Some(text) if is_office_line(text.as_bytes()) => {
            Ok(Text::from_slice(alloc, text.as_bytes())?)
        }
        _ => bad_value(alloc, Key::OfficeLine),
    }
}

/// Returns the zone of local times, as `Eastern`, which the key `zone` of the document `table`
/// names. Another value and a missing key are both `BadValue`.
///
/// # Errors
///
/// `BadValue` of its key; or out of memory.
pub fn zone_field(alloc: Global, table: &Table) -> Result<LocalZone, Or<SettingsFault>>
    ensures { Gives result (zone_field (table_view table.now)) }
{
    match text_at(table, Key::Zone).and_then(local_zone_in) {
        Some(zone) => Ok(zone),
        None => bad_value(alloc, Key::Zone),
    }
}

/// Returns the start of the heading line of a category, as `WWUS41`, from the table `headings` of
/// the document `table`. Errs with `BadValue` if the value is missing or is not four capital
/// letters and two digits, or out of memory.
fn heading_field(
    alloc: Global,
    table: &Table,
    category: Category,
) -> Result<[u8; 6], Or<SettingsFault>>
    ensures { Gives result (heading_field (table_view table.now) category) }
{
    let key = Key::Heading(category);
    match text_at(table, key).and_then(|text| parse_ttaaii(text.as_bytes())) {
        Some(heading) => Ok(heading),
        None => bad_value(alloc, key),
    }
}

/// Returns the starts of the heading lines of the eight categories, as `WWUS41`, in the order of
/// `Category`, from the table `headings` of the document `table`. A missing value is `BadValue`
/// too.
///
/// # Errors
///
/// `BadValue` of the first key with a bad value; or out of memory.
#[tactic(auto, unfolding(crate::specs::Reading::headings_field))]
pub fn headings_field(alloc: Global, table: &Table) -> Result<[[u8; 6]; 8], Or<SettingsFault>>
    ensures { Gives result (headings_field (table_view table.now)) }
{
    let wsw = heading_field(alloc, table, Category::Wsw)?;
    let npw = heading_field(alloc, table, Category::Npw)?;
    let rfw = heading_field(alloc, table, Category::Rfw)?;
    let cfw = heading_field(alloc, table, Category::Cfw)?;
    let mww = heading_field(alloc, table, Category::Mww)?;
    let ffa = heading_field(alloc, table, Category::Ffa)?;
    let flw = heading_field(alloc, table, Category::Flw)?;
    let fls = heading_field(alloc, table, Category::Fls)?;
    Ok([wsw, npw, rfw, cfw, mww, ffa, flw, fls])
}

/// Returns the desks that the items of a TOML list name, in the order of the items, or `None` if an
/// item is not the name of a desk.
fn desks_of(alloc: Global, items: &[Value]) -> Result<Option<List<Desk>>, Oom>
    ensures { IfOk result (λ desks. desks ≡ names_of (items_view items.now)) }
{
    let mut desks = List::new(alloc);
    for item in items {
        match item.as_str().and_then(|text| Desk::new(text.as_bytes())) {
            Some(desk) => desks.push(desk)?,
            None => return Ok(None),
        }
    }
    Ok(Some(desks))
}

/// Returns the desks of a TOML list of 1 to 64 names of desks, in the order of the list, or `None`
/// if the value is not such a list.
fn desks_in(alloc: Global, value: &Value) -> Result<Option<List<Desk>>, Oom>
    ensures { IfOk result (λ desks. desks ≡ desks_in (view value.now)) }
{
    let Some(items) = value.as_array() else {
        return Ok(None);
    };
    let Some(desks) = desks_of(alloc, items)? else {
        return Ok(None);
    };
    if 1 <= desks.len() && desks.len() <= DESKS_MOST {
        Ok(Some(desks))
    } else {
        Ok(None)
    }
}

/// Returns the desks that the key `desks` of the document `table` lists, in the order of the list.
/// A value that is no list of 1 to 64 names of desks and a missing key are both `BadValue`; a desk
/// may be in the list twice.
///
/// # Errors
///
/// `BadValue` of its key; or out of memory.
pub fn desks_field(alloc: Global, table: &Table) -> Result<List<Desk>, Or<SettingsFault>>
    ensures { Gives result (desks_field (table_view table.now)) }
{
    let Some(value) = value_at(table, Key::Desks) else {
        return bad_value(alloc, Key::Desks);
    };
    match desks_in(alloc, value)? {
        Some(desks) => Ok(desks),
        None => bad_value(alloc, Key::Desks),
    }
}

/// Returns the text of a TOML string that has the form of a zone's name, or `None` if it has
/// another form or the value is no string.
fn zone_name_in(value: &Value) -> Option<&str>
    ensures { option_map (λ s. s.now) result
        ≡ option_and_then zone_name_in (as_str (view value.now)) }
{
    match value.as_str() {
        Some(text) => {
            if is_zone_name(text.as_bytes()) {
                Some(text)
            } else {
                None
            }
        }
        None => None,
    }
}

/// Returns the zones that are the keys of a TOML table, each with its value, the zone's name, in
/// the order of zones. `None` if a key is not a zone, or a value does not have the form of a zone's
/// name.
fn zones_of(alloc: Global, table: &Table) -> Result<Option<List<(Zone, Text)>>, Oom>
    ensures { IfOk result
        (λ zones. zones ≡ option_map in_order (zone_pairs (table_view table.now))) }
{
    let mut zones = List::new(alloc);
    for (key, value) in table.iter() {
        let Some(zone) = parse_zone(key.as_bytes()) else {
            return Ok(None);
        };
        let Some(text) = zone_name_in(value) else {
            return Ok(None);
        };
        let name = Text::from_slice(alloc, text.as_bytes())?;
        zones.push((zone, name))?;
    }
    Ok(Some(zones))
}

/// Returns the zones of a TOML table of 1 to 2,000 zones with their names, in the order of zones,
/// or `None` if the value is not such a table.
fn zones_in(alloc: Global, value: &Value) -> Result<Option<List<(Zone, Text)>>, Oom>
    ensures { IfOk result (λ zones. zones ≡ zones_in (view value.now)) }
{
    let Some(table) = value.as_table() else {
        return Ok(None);
    };
    let Some(zones) = zones_of(alloc, table)? else {
        return Ok(None);
    };
    if 1 <= zones.len() && zones.len() <= ZONES_MOST {
        Ok(Some(zones))
    } else {
        Ok(None)
    }
}

/// Returns the zones that the table `zones` of the document `table` has, each with its name, in the
/// order of zones. A value that is no table of 1 to 2,000 zones and a missing key are both
/// `BadValue`.
///
/// # Errors
///
/// `BadValue` of its key; or out of memory.
pub fn zones_field(alloc: Global, table: &Table) -> Result<List<(Zone, Text)>, Or<SettingsFault>>
    ensures { Gives result (zones_field (table_view table.now)) }
{
    let Some(value) = value_at(table, Key::Zones) else {
        return bad_value(alloc, Key::Zones);
    };
    match zones_in(alloc, value)? {
        Some(zones) => Ok(zones),
        None => bad_value(alloc, Key::Zones),
    }
}
