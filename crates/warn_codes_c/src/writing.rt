//! Writes P-VTEC and H-VTEC texts.
ghost use Rattle.std.specs.Prelude.{◌≡◌, ◌⊎◌, Some, IfSome, List as Seq, ℕ};
ghost use Rattle.hazard_types.specs.Characters.{location_at};
ghost use Rattle.hazard_types.specs.declared.line.Flood.{Flood as FloodValues};
ghost use Rattle.hazard_types.specs.declared.line.Vtec.{Vtec as Values};
ghost use Rattle.hvtec_string.specs.Columns.{IsHvtec};
ghost use Rattle.vtec_string.specs.Columns.{IsVtec, office_at};
ghost use Rattle.warn_codes_c.specs.Fields.{vtec_fields, flood_fields};
ghost use Rattle.warn_codes_c.specs.Writing.{vtec_of, flood_of, number_at, time_of};

use crate::fields::{FloodFields, VtecFields};
use crate::status::{BAD_VALUE, OK};
use hazard_types::{
    Action, Cause, Class, Flood, Minute, Phen, Severity, Sig, Status, Vtec, is_location, is_office,
    parse_significance,
};
use hvtec_string::{hvtec_text, hvtec_values};
use vtec_string::{vtec_text, vtec_values};

/// Returns the time that a number in a field for C stands for, or `None` if it stands for none. A
/// number below 52,596,000 is minutes since 2000-01-01 00:00 UTC, and 4,294,967,295 stands for the
/// zeros of a VTEC text, which are `Some(None)`.
fn time_of(number: u32) -> Option<Option<Minute>>
    ensures { result ≡ time_of number }
{
    if number == u32::MAX {
        return Some(None);
    }
    match Minute::new(number) {
        Some(minute) => Some(Some(minute)),
        None => None,
    }
}

/// Returns the office, or `None` if it is not four characters of A-Z and 0-9.
fn office_of(office: [u8; 4]) -> Option<[u8; 4]>
    ensures { result ≡ office_at office }
{
    if is_office(&office) {
        Some(office)
    } else {
        None
    }
}

/// Returns the event tracking number, or `None` if it is above 9,999.
fn number_of(number: u16) -> Option<u16>
    ensures { result ≡ number_at number }
{
    if number <= 9999 { Some(number) } else { None }
}

/// Returns the P-VTEC values that have these fields, or `None` if one of the fields stands for no
/// value.
#[tactic(auto, unfolding(crate::specs::Writing::vtec_of))]
fn vtec_of(fields: &VtecFields) -> Option<Vtec>
    ensures { result ≡ vtec_of fields.now }
{
    let action = fields.action;
    vtec_values(
        Class::from_code(&[fields.class]),
        Action::from_code(&action),
        office_of(fields.office),
        Phen::new(fields.phenomenon),
        parse_significance(&[fields.significance]),
        number_of(fields.number),
        time_of(fields.begin),
        time_of(fields.end),
    )
}

/// Returns the NWS location identifier, or `None` if it is not five characters of A-Z and 0-9.
fn location_of(location: [u8; 5]) -> Option<[u8; 5]>
    ensures { result ≡ location_at location }
{
    if is_location(&location) {
        Some(location)
    } else {
        None
    }
}

/// Returns the H-VTEC values that have these fields, or `None` if one of the fields stands for no
/// value.
#[tactic(auto, unfolding(crate::specs::Writing::flood_of))]
fn flood_of(fields: &FloodFields) -> Option<Flood>
    ensures { result ≡ flood_of fields.now }
{
    let status = fields.record_status;
    hvtec_values(
        location_of(fields.location),
        Severity::from_code(&[fields.severity]),
        Cause::new(fields.cause),
        time_of(fields.begin),
        time_of(fields.crest),
        time_of(fields.end),
        Status::from_code(&status),
    )
}

/// Returns the one P-VTEC text whose values have these fields, or `None` if there is none.
#[tactic(auto, using(crate::proofs::Fitting::vtec_back, crate::proofs::Fitting::vtec_hit, crate::proofs::Fitting::vtec_may))]
fn vtec_text_of(fields: &VtecFields) -> Option<[u8; 48]>
    ensures found { IfSome result
        (λ bytes. (v : Values) × (vtec_fields v ≡ fields.now) × IsVtec bytes v) }
    ensures only { (bytes : Seq ℕ) (v : Values) →
        IsVtec bytes v → vtec_fields v ≡ fields.now → result ≡ Some bytes }
{
    match vtec_of(fields) {
        Some(v) => Some(vtec_text(&v)),
        None => None,
    }
}

/// Returns the one H-VTEC text whose values have these fields, or `None` if there is none.
#[tactic(auto, using(crate::proofs::Fitting::flood_back, crate::proofs::Fitting::flood_hit, crate::proofs::Fitting::flood_may))]
fn hvtec_text_of(fields: &FloodFields) -> Option<[u8; 54]>
    ensures found { IfSome result
        (λ bytes. (h : FloodValues) × (flood_fields h ≡ fields.now) × IsHvtec bytes h) }
    ensures only { (bytes : Seq ℕ) (h : FloodValues) →
        IsHvtec bytes h → flood_fields h ≡ fields.now → result ≡ Some bytes }
{
    match flood_of(fields) {
        Some(h) => Some(hvtec_text(&h)),
        None => None,
    }
}

/// Writes the one P-VTEC text with these fields to `out`, 48 bytes without a NUL. Returns `OK`, or
/// `BAD_VALUE` if no text has these fields, and then nothing is written.
///
/// Source: NWS Instruction 10-1703, P-VTEC.
#[unsafe(no_mangle)]
pub extern "C" fn warn_codes_c_write_vtec(fields: &VtecFields, out: &mut [u8; 48]) -> u32
    // What is written is a text whose values have these fields.
    ensures found { result ≡ 0 → (v : Values) × (vtec_fields v ≡ fields.now) × IsVtec out.new v }
    // If there is such a text, it is written.
    ensures only { (bytes : Seq ℕ) (v : Values) →
        IsVtec bytes v → vtec_fields v ≡ fields.now → (result ≡ 0) × (out.new ≡ bytes) }
    ensures refused { (result ≡ 0) ⊎ ((result ≡ 6) × (out.new ≡ out.old)) }
{
    match vtec_text_of(fields) {
        Some(text) => {
            *out = text;
            OK
        }
        None => BAD_VALUE,
    }
}

/// Writes the one H-VTEC text with these fields to `out`, 54 bytes without a NUL. Returns `OK`, or
/// `BAD_VALUE` if no text has these fields, and then nothing is written.
///
/// Source: NWS Instruction 10-1703, H-VTEC.
#[unsafe(no_mangle)]
pub extern "C" fn warn_codes_c_write_hvtec(fields: &FloodFields, out: &mut [u8; 54]) -> u32
    // What is written is a text whose values have these fields.
    ensures found { result ≡ 0
        → (h : FloodValues) × (flood_fields h ≡ fields.now) × IsHvtec out.new h }
    // If there is such a text, it is written.
    ensures only { (bytes : Seq ℕ) (h : FloodValues) →
        IsHvtec bytes h → flood_fields h ≡ fields.now → (result ≡ 0) × (out.new ≡ bytes) }
    ensures refused { (result ≡ 0) ⊎ ((result ≡ 6) × (out.new ≡ out.old)) }
{
    match hvtec_text_of(fields) {
        Some(text) => {
            *out = text;
            OK
        }
        None => BAD_VALUE,
    }
}
