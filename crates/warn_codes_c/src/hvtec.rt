//! Reads H-VTEC texts.
ghost use Rattle.std.specs.Prelude.{◌≡◌, MatchOption};
ghost use Rattle.hazard_types.specs.declared.line.Flood.{Flood as Values};
ghost use Rattle.hvtec_string.specs.Columns.{IsHvtec, hvtec_of};
ghost use Rattle.warn_codes_c.specs.Fields.{flood_fields};

use crate::fields::{FloodFields, flood_fields};
use crate::status::{NOT_HVTEC, OK};
use hvtec_string::read_hvtec;

/// Reads an H-VTEC text of 54 bytes, from slash to slash, and writes its values to `out`. Returns
/// `OK`, or `NOT_HVTEC` for any other bytes, and then nothing is written.
///
/// Source: NWS Instruction 10-1703, H-VTEC.
#[unsafe(no_mangle)]
pub extern "C" fn warn_codes_c_read_hvtec(text: &[u8], out: &mut FloodFields) -> u32
    // The values of each text are written, and bytes that are none change nothing.
    ensures exact { MatchOption (hvtec_of text.now) ((result ≡ 5) × (out.new ≡ out.old))
        (λ h. (result ≡ 0) × (out.new ≡ flood_fields h)) }
    ensures only { (h : Values) → IsHvtec text.now h → (result ≡ 0) × (out.new ≡ flood_fields h) }
{
    match read_hvtec(text) {
        Some(h) => {
            *out = flood_fields(&h);
            OK
        }
        None => NOT_HVTEC,
    }
}
