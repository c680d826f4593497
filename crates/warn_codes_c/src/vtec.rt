//! Reads P-VTEC texts.
ghost use Rattle.std.specs.Prelude.{◌≡◌, MatchOption};
ghost use Rattle.hazard_types.specs.declared.line.Vtec.{Vtec as Values};
ghost use Rattle.vtec_string.specs.Columns.{IsVtec, vtec_of};
ghost use Rattle.warn_codes_c.specs.Fields.{vtec_fields};

use crate::fields::{VtecFields, vtec_fields};
use crate::status::{NOT_VTEC, OK};
use vtec_string::read_vtec;

/// Reads a P-VTEC text of 48 bytes, from slash to slash, and writes its values to `out`. Returns
/// `OK`, or `NOT_VTEC` for any other bytes, and then nothing is written.
///
/// Source: NWS Instruction 10-1703, P-VTEC.
#[unsafe(no_mangle)]
pub extern "C" fn warn_codes_c_read_vtec(text: &[u8], out: &mut VtecFields) -> u32
    // The values of each text are written, and bytes that are none change nothing.
    ensures exact { MatchOption (vtec_of text.now) ((result ≡ 4) × (out.new ≡ out.old))
        (λ v. (result ≡ 0) × (out.new ≡ vtec_fields v)) }
    ensures only { (v : Values) → IsVtec text.now v → (result ≡ 0) × (out.new ≡ vtec_fields v) }
{
    match read_vtec(text) {
        Some(v) => {
            *out = vtec_fields(&v);
            OK
        }
        None => NOT_VTEC,
    }
}
