//! Reads UGC texts.
ghost use Rattle.std.specs.Prelude.{◌≡◌, ◌++◌, map, Ok, Err, IfOk, OnOk, List as Seq, ℕ};
ghost use Rattle.hazard_types.specs.Places.{Place};
ghost use Rattle.hazard_types.specs.declared.calendar.DayStamp.{DayStamp as Expiry};
ghost use Rattle.ugc_codes.specs.Reading.{ugc_of};
ghost use Rattle.ugc_codes.specs.Grammar.{IsUgc};
ghost use Rattle.ugc_codes.specs.Faults.{FirstFault};
ghost use Rattle.warn_codes_c.specs.Fields.{zone_fields};
ghost use Rattle.warn_codes_c.specs.Ugc.{ReadsUgc, IsToldUgc, ugc_fault, fault_fields, ugc_fields};

use crate::fields::{ZoneFields, zone_fields};
use crate::handing::hand_out;
use crate::status::{NO_MEMORY, OK, TOO_SMALL};
use hazard_types::{List, Oom, Or, Zone};
use std::alloc::Global;
use ugc_codes::{UgcFault, UgcRead, read_ugc};

/// What a UGC text says besides its zones, or where its first fault is; all other fields are then
/// 0.
#[repr(C)]
#[derive(Clone, Copy)]
pub struct UgcFields {
    /// The count of its zones.
    pub zones: usize,
    /// Its length in bytes, up to the hyphen after its expiry, and with it.
    pub used: usize,
    /// The 0-based byte at which the fault starts; 0 without a fault, or if the text is cut short.
    pub fault_at: usize,
    /// The day of the month on which it expires, with hour and minute in UTC.
    pub day: u8,
    pub hour: u8,
    pub minute: u8,
}

/// Appends each zone to `rows`, in the fixed layout for C.
///
/// # Errors
///
/// Out of memory.
pub fn add_zones(rows: &mut List<ZoneFields>, zones: &[Zone]) -> Result<(), Oom>
    ensures { OnOk result (rows.new ≡ rows.old ++ map zone_fields zones.now) }
{
    for zone in zones {
        rows.push(zone_fields(zone))?;
    }
    Ok(())
}

/// Returns the zones in the fixed layout for C, in the same order.
fn zone_rows(alloc: Global, zones: &[Zone]) -> Result<List<ZoneFields>, Oom>
    ensures { IfOk result (λ rows. rows ≡ map zone_fields zones.now) }
{
    let mut rows = List::new(alloc);
    add_zones(&mut rows, zones)?;
    Ok(rows)
}

/// Returns the fields of a UGC text that was read without a fault: the count of its zones, its
/// length and its expiry.
fn ugc_fields(read: &UgcRead) -> UgcFields
    ensures { result ≡ ugc_fields read.now }
{
    UgcFields {
        zones: read.zones.len(),
        used: read.used,
        fault_at: 0,
        day: read.expiry.day,
        hour: read.expiry.hour,
        minute: read.expiry.minute,
    }
}

/// Returns the status of a UGC fault, 10 (not a code), 11 (bad range) or 12 (cut short), and the
/// 0-based byte at which the faulty group starts, which is 0 if the text is cut short.
fn fault_parts(fault: UgcFault) -> (u32, usize)
    ensures { result ≡ ugc_fault fault }
{
    match fault {
        UgcFault::NotACode { at } => (10, at),
        UgcFault::BadRange { at } => (11, at),
        UgcFault::CutShort => (12, 0),
    }
}

/// Returns the fields of a UGC text whose first fault starts at the byte `fault_at`; all other
/// fields are 0.
fn fault_fields(fault_at: usize) -> UgcFields
    ensures { result ≡ fault_fields fault_at }
{
    UgcFields {
        zones: 0,
        used: 0,
        fault_at,
        day: 0,
        hour: 0,
        minute: 0,
    }
}

/// Writes the result of reading a UGC text to the caller's buffers, and returns the status: `OK`,
/// `TOO_SMALL`, `NO_MEMORY`, or 10 to 12 for the fault. The fields, or the byte at which the fault
/// starts, go to `out`, and the zones to `zones`. For `TOO_SMALL`, if `zones` has no room for all
/// of them, `zones` is not written, and for `NO_MEMORY` nothing is.
fn fill_ugc(
    alloc: Global,
    answer: Result<UgcRead, Or<UgcFault>>,
    zones: &mut [ZoneFields],
    out: &mut UgcFields,
) -> u32
    ensures { IsToldUgc answer result zones.old zones.new out.old out.new }
{
    let read = match answer {
        Ok(read) => read,
        Err(Or::No(fault)) => {
            let (status, at) = fault_parts(fault);
            *out = fault_fields(at);
            return status;
        }
        Err(Or::OutOfMemory) => return NO_MEMORY,
    };
    let Ok(rows) = zone_rows(alloc, read.zones.as_slice()) else {
        return NO_MEMORY;
    };
    *out = ugc_fields(&read);
    if hand_out(rows.as_slice(), zones) {
        OK
    } else {
        TOO_SMALL
    }
}

/// Reads the UGC text at the start of `text`, and writes its fields to `out` and its zones, in
/// order and each once, to `zones`. Returns `OK`; `TOO_SMALL` if `zones` has no room for all, with
/// their count in `out`; 10 (not a code), 11 (bad range) or 12 (cut short) for the first fault,
/// with its byte in `out`; or `NO_MEMORY`, and then nothing is written.
///
/// Source: NWS Instruction 10-1702, UGC.
#[unsafe(no_mangle)]
pub extern "C" fn warn_codes_c_read_ugc(
    alloc: Global,
    text: &[u8],
    zones: &mut [ZoneFields],
    out: &mut UgcFields,
) -> u32
    // What is in the grammar is read, and the first fault of what is not is reported, unless memory
    // runs out.
    ensures only { (zs : Seq Place) (d : Expiry) (n : ℕ) →
        IsUgc text.now zs d n →
        ReadsUgc (Ok (record { zones = zs; expiry = d; used = n })) result zones.old zones.new
        out.old out.new }
    ensures fault_only { (f : UgcFault) →
        FirstFault text.now f → ReadsUgc (Err f) result zones.old zones.new out.old out.new }
    // The same as one function of the bytes.
    ensures exact { ReadsUgc (ugc_of text.now) result zones.old zones.new out.old out.new }
{
    let answer = read_ugc(alloc, text);
    fill_ugc(alloc, answer, zones, out)
}
