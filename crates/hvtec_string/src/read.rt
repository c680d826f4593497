//! Reads H-VTEC strings.
ghost use Rattle.std.specs.Prelude.{◌≡◌, ◌<◌, ◌==◌, length, true, Some, IfSome};
ghost use Rattle.hazard_types.specs.declared.line.Flood.{Flood as Values};
ghost use Rattle.hvtec_string.specs.Columns.{separators, has_columns, cause_at, values, hvtec_of, IsHvtec};

use crate::columns::{BEGIN, CAUSE, CREST, END, LENGTH, LOCATION, SEVERITY, STATUS};
use hazard_types::{Cause, Flood, Minute, Severity, Status, parse_location, parse_time};

/// Returns the immediate cause whose two letters are `text`, or `None` if one of them is not A-Z.
/// `text` must be two bytes.
fn parse_cause(text: &[u8]) -> Option<Cause>
    requires { length text.now ≡ 2 }
    ensures { result ≡ cause_at text.now }
{
    Cause::new([text[0], text[1]])
}

/// Whether the bytes are 54, with a slash at index 0 and 53 and a dot at index 6, 8, 11, 24, 37 and
/// 50, as in an H-VTEC string. No other byte is looked at.
#[tactic(auto, unfolding(crate::specs::Columns::has_columns))]
fn has_columns(bytes: &[u8]) -> bool
    ensures value { result ≡ has_columns bytes.now }
    ensures size { result ≡ true → length bytes.now ≡ 54 }
{
    if bytes.len() != LENGTH {
        return false;
    }
    let separators = [
        bytes[0], bytes[6], bytes[8], bytes[11], bytes[24], bytes[37], bytes[50], bytes[53],
    ];
    separators == *b"/....../"
}

/// Returns the values of an H-VTEC string, put together from those of its columns, or `None` if one
/// of the arguments is `None`. `site` is the code of the location, and a time of `Some(None)` is
/// one of zeros.
pub fn hvtec_values(
    site: Option<[u8; 5]>,
    severity: Option<Severity>,
    cause: Option<Cause>,
    begin: Option<Option<Minute>>,
    crest: Option<Option<Minute>>,
    end: Option<Option<Minute>>,
    status: Option<Status>,
) -> Option<Flood>
    ensures { result ≡ values site severity cause begin crest end status }
{
    Some(Flood {
        site: site?,
        severity: severity?,
        cause: cause?,
        begin: begin?,
        crest: crest?,
        end: end?,
        status: status?,
    })
}

/// Returns the values of an H-VTEC string, or `None` if `bytes` are not 54, a separator is wrong or
/// a column has no value. A time of zeros is `None`.
#[tactic(auto, unfolding(crate::specs::Columns::hvtec_of))]
fn values_of(bytes: &[u8]) -> Option<Flood>
    ensures { result ≡ hvtec_of bytes.now }
{
    if !has_columns(bytes) {
        return None;
    }
    hvtec_values(
        parse_location(&bytes[LOCATION]),
        Severity::from_code(&bytes[SEVERITY..SEVERITY + 1]),
        parse_cause(&bytes[CAUSE]),
        parse_time(&bytes[BEGIN]),
        parse_time(&bytes[CREST]),
        parse_time(&bytes[END]),
        Status::from_code(&bytes[STATUS]),
    )
}

/// Returns the values of an H-VTEC string: 54 bytes, from slash to slash, without a line end.
/// `None` if `bytes` is not one. Any two capital letters are a cause, and a time of zeros is
/// `None`.
///
/// Source: NWS Instruction 10-1703, H-VTEC.
#[tactic(auto, using(crate::proofs::Laying::values_found, crate::proofs::Laying::hvtec_hit))]
pub fn read_hvtec(bytes: &[u8]) -> Option<Flood>
    // The bytes have these values.
    ensures found { IfSome result (IsHvtec bytes.now) }
    // Every H-VTEC string is read, so `None` means that the bytes are not one.
    ensures only { (h : Values) → IsHvtec bytes.now h → result ≡ Some h }
    // The same as one function of the bytes.
    ensures exact { result ≡ hvtec_of bytes.now }
{
    values_of(bytes)
}
