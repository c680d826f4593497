//! The values of codes in structs of a fixed layout.
ghost use Rattle.std.specs.Prelude.{◌≡◌};
ghost use Rattle.warn_codes_c.specs.Fields.{time_number, vtec_fields, flood_fields, zone_fields};

use hazard_types::{Flood, Minute, Vtec, Zone};

/// The values of a P-VTEC text. A time is in minutes since 2000-01-01T00:00Z UTC, and 4,294,967,295
/// for zeros.
///
/// Source: NWS Instruction 10-1703, P-VTEC.
#[repr(C)]
#[derive(Clone, Copy)]
pub struct VtecFields {
    pub begin: u32,
    pub end: u32,
    /// The event tracking number, 0 to 9999.
    pub number: u16,
    pub phenomenon: [u8; 2],
    pub office: [u8; 4],
    pub action: [u8; 3],
    pub class: u8,
    pub significance: u8,
}

/// The values of an H-VTEC text. Times are as in `VtecFields`.
///
/// Source: NWS Instruction 10-1703, H-VTEC.
#[repr(C)]
#[derive(Clone, Copy)]
pub struct FloodFields {
    pub begin: u32,
    pub crest: u32,
    pub end: u32,
    /// The NWS location identifier.
    pub location: [u8; 5],
    pub severity: u8,
    /// The immediate cause.
    pub cause: [u8; 2],
    pub record_status: [u8; 2],
}

/// A county (kind `C`) or a public zone (kind `Z`) of a state.
///
/// Source: NWS Instruction 10-1702, UGC.
#[repr(C)]
#[derive(Clone, Copy)]
pub struct ZoneFields {
    /// 1 to 999.
    pub number: u16,
    pub state: [u8; 2],
    pub kind: u8,
}

/// Returns a time in minutes since 2000-01-01 00:00 UTC, or 4,294,967,295 for `None`, which is
/// zeros in a VTEC text.
pub fn time_number(time: &Option<Minute>) -> u32
    ensures { result ≡ time_number time.now }
{
    match time {
        Some(minute) => minute.get(),
        None => u32::MAX,
    }
}

/// Returns P-VTEC values in the fixed layout for C.
pub fn vtec_fields(v: &Vtec) -> VtecFields
    ensures { result ≡ vtec_fields v.now }
{
    VtecFields {
        begin: time_number(&v.begin),
        end: time_number(&v.end),
        number: v.etn,
        phenomenon: v.hazard.phen.letters(),
        office: v.office,
        action: v.action.code(),
        class: v.class.letter(),
        significance: v.hazard.sig.letter(),
    }
}

/// Returns H-VTEC values in the fixed layout for C.
pub fn flood_fields(h: &Flood) -> FloodFields
    ensures { result ≡ flood_fields h.now }
{
    FloodFields {
        begin: time_number(&h.begin),
        crest: time_number(&h.crest),
        end: time_number(&h.end),
        location: h.site,
        severity: h.severity.letter(),
        cause: h.cause.letters(),
        record_status: h.status.code(),
    }
}

/// Returns a zone in the fixed layout for C.
pub fn zone_fields(zone: &Zone) -> ZoneFields
    ensures { result ≡ zone_fields zone.now }
{
    ZoneFields {
        number: zone.number(),
        state: zone.state(),
        kind: zone.kind().letter(),
    }
}
