//! Reads P-VTEC strings.
ghost use Rattle.std.specs.Prelude.{◌≡◌, ◌&&◌, ◌==◌, length, true, Some, IfSome};
ghost use Rattle.hazard_types.specs.declared.line.Vtec.{Vtec as Values};
ghost use Rattle.vtec_string.specs.Columns.{separators, has_columns, office_at, phenomenon_at, number_at, values, vtec_of, IsVtec};

use crate::columns::{ACTION, BEGIN, CLASS, END, LENGTH, NUMBER, OFFICE, PHENOMENON, SIGNIFICANCE};
use hazard_types::{
    Action, Class, Hazard, Minute, Phen, Sig, Vtec, are_name_bytes, parse_significance, parse_time,
};

/// Returns the office identifier, as `KLWX`, or `None` if `text` is not four characters of A-Z and
/// 0-9.
fn parse_office(text: &[u8]) -> Option<[u8; 4]>
    ensures { result ≡ office_at text.now }
{
    let [a, b, c, d] = text else {
        return None;
    };
    if are_name_bytes(text) {
        Some([*a, *b, *c, *d])
    } else {
        None
    }
}

/// Returns the phenomenon whose two letters are `text`, or `None` if one of them is not A-Z. `text`
/// must be two bytes.
fn parse_phenomenon(text: &[u8]) -> Option<Phen>
    requires { length text.now ≡ 2 }
    ensures { result ≡ phenomenon_at text.now }
{
    Phen::new([text[0], text[1]])
}

/// Returns the event tracking number that four digits are, 0 to 9,999, or `None` if `text` is not
/// four digits.
#[tactic(auto, using(crate::proofs::Numbers::number_hit, crate::proofs::Numbers::number_back), unfolding(crate::specs::Columns::number_at))]
fn parse_number(text: &[u8]) -> Option<u16>
    ensures { result ≡ number_at text.now }
{
    let [a, b, c, d] = text else {
        return None;
    };
    if a.is_ascii_digit() && b.is_ascii_digit() && c.is_ascii_digit() && d.is_ascii_digit() {
        let high = 10 * u16::from(a - b'0') + u16::from(b - b'0');
        let low = 10 * u16::from(c - b'0') + u16::from(d - b'0');
        Some(100 * high + low)
    } else {
        None
    }
}

/// Whether there are 48 bytes, and the slashes, dots and hyphen are where a P-VTEC string has them.
/// The other bytes are not read.
#[tactic(auto, unfolding(crate::specs::Columns::has_columns))]
fn has_columns(bytes: &[u8]) -> bool
    ensures value { result ≡ has_columns bytes.now }
    ensures size { result ≡ true → length bytes.now ≡ 48 }
{
    if bytes.len() != LENGTH {
        return false;
    }
    let separators = [
        bytes[0], bytes[2], bytes[6], bytes[11], bytes[14], bytes[16], bytes[21], bytes[34],
        bytes[47],
    ];
    separators == *b"/......-/"
}

/// Returns the values of a P-VTEC string, put together from those of its columns, or `None` if one
/// of the arguments is `None`. `etn` is the event tracking number, and a `begin` or `end` of
/// `Some(None)` is a time of zeros.
pub fn vtec_values(
    class: Option<Class>,
    action: Option<Action>,
    office: Option<[u8; 4]>,
    phen: Option<Phen>,
    sig: Option<Sig>,
    etn: Option<u16>,
    begin: Option<Option<Minute>>,
    end: Option<Option<Minute>>,
) -> Option<Vtec>
    ensures { result ≡ values class action office phen sig etn begin end }
{
    Some(Vtec {
        class: class?,
        action: action?,
        office: office?,
        hazard: Hazard {
            phen: phen?,
            sig: sig?,
        },
        etn: etn?,
        begin: begin?,
        end: end?,
    })
}

/// Returns the values of a P-VTEC string, or `None` if `bytes` are not 48, a separator is wrong or
/// a column has no value. A time of zeros is `None`.
#[tactic(auto, unfolding(crate::specs::Columns::vtec_of))]
fn values_of(bytes: &[u8]) -> Option<Vtec>
    ensures { result ≡ vtec_of bytes.now }
{
    if !has_columns(bytes) {
        return None;
    }
    vtec_values(
        Class::from_code(&bytes[CLASS..CLASS + 1]),
        Action::from_code(&bytes[ACTION]),
        parse_office(&bytes[OFFICE]),
        parse_phenomenon(&bytes[PHENOMENON]),
        parse_significance(&bytes[SIGNIFICANCE..SIGNIFICANCE + 1]),
        parse_number(&bytes[NUMBER]),
        parse_time(&bytes[BEGIN]),
        parse_time(&bytes[END]),
    )
}

/// Returns the values of a P-VTEC string: 48 bytes, from slash to slash, without a line end. `None`
/// if `bytes` is not one. A time of zeros is `None`: a begin that has passed, an end until further
/// notice.
///
/// Source: NWS Instruction 10-1703, P-VTEC.
#[tactic(auto, using(crate::proofs::Laying::values_found, crate::proofs::Laying::vtec_hit))]
pub fn read_vtec(bytes: &[u8]) -> Option<Vtec>
    // The bytes have these values.
    ensures found { IfSome result (IsVtec bytes.now) }
    // Every P-VTEC string is read, so `None` means that the bytes are not one.
    ensures only { (v : Values) → IsVtec bytes.now v → result ≡ Some v }
    // The same as one function of the bytes.
    ensures exact { result ≡ vtec_of bytes.now }
{
    values_of(bytes)
}
