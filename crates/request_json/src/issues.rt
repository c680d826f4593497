//! The canonical text of an issue without H-VTEC values, written piece by piece.
ghost use Rattle.std.specs.Prelude.{◌≡◌, ◌++◌, None, IfOk, IfSome, OnOk};
ghost use Rattle.office_types.specs.declared.request.Request.TheVariants.{Issue};
ghost use Rattle.office_types.specs.declared.request.Target.TheVariants.{Fresh};
ghost use Rattle.request_json.specs.Canonical.{asked_text};
ghost use Rattle.request_json.specs.Pieces.{begin_bytes, end_bytes, string_text, begin_desk, do_end, hazard_seq, texts_zones};

use crate::pieces::{write_string, write_texts, write_whole, write_zones};
use hazard_types::{Begin, End, Hazard, Oom, Text, Zone, hazard_text, stamp};
use office_types::{Desk, PutPart, Target, Texts};
use std::alloc::Global;

/// The bytes that are reserved for all but the zones and the texts.
const FRAME_ROOM: usize = 192;

/// The bytes that a zone takes, with its quotes and its comma.
const ZONE_ROOM: usize = 9;

/// Returns the hazard of the event that a put opens, or `None` if the put joins an event or has
/// H-VTEC values.
pub(crate) fn fresh_hazard_without_flood(part: &PutPart) -> Option<Hazard>
    ensures { IfSome result (λ h. (part.now.target ≡ Fresh h) × (part.now.flood ≡ None)) }
{
    if part.flood.is_some() {
        return None;
    }
    match &part.target {
        Target::Fresh(hazard) => Some(*hazard),
        Target::Join(_event) => None,
    }
}

/// Returns the number of bytes to reserve for the canonical text of an issue with the put `part`:
/// enough for most, since escapes in texts are not counted.
fn room_of(part: &PutPart) -> usize {
    let texts = &part.texts;
    FRAME_ROOM
        .saturating_add(texts.what.len())
        .saturating_add(texts.area.len())
        .saturating_add(texts.impacts.len())
        .saturating_add(texts.details.len())
        .saturating_add(part.zones.len().saturating_mul(ZONE_ROOM))
}

/// Appends the value of the member `begin` as a JSON string, `now` or a stamp such as
/// `180103T1530Z`.
fn write_begin(alloc: Global, out: &mut Text, begin: &Begin) -> Result<(), Oom>
    ensures { OnOk result (out.new ≡ out.old ++ string_text (begin_bytes begin.now)) }
{
    match begin {
        Begin::Now => write_string(alloc, out, b"now"),
        Begin::At(minute) => write_string(alloc, out, &stamp(*minute)),
    }
}

/// Appends the value of the member `end` as a JSON string, `ufn` or a stamp such as `180104T0000Z`.
fn write_end(alloc: Global, out: &mut Text, end: &End) -> Result<(), Oom>
    ensures { OnOk result (out.new ≡ out.old ++ string_text (end_bytes end.now)) }
{
    match end {
        End::Ufn => write_string(alloc, out, b"ufn"),
        End::At(minute) => write_string(alloc, out, &stamp(*minute)),
    }
}

/// Appends the start of an issue's object: `{` and the members `begin` and `desk`.
#[tactic(auto, unfolding(crate::specs::Pieces::begin_desk))]
fn write_begin_desk(alloc: Global, out: &mut Text, begin: &Begin, desk: &Desk) -> Result<(), Oom>
    ensures { OnOk result (out.new ≡ out.old ++ begin_desk begin.now desk.now) }
{
    out.extend(b"{\"begin\":")?;
    write_begin(alloc, out, begin)?;
    out.extend(b",\"desk\":")?;
    write_string(alloc, out, desk.bytes())
}

/// Appends a comma and the members `do`, whose value is `word`, and `end`.
#[tactic(auto, unfolding(crate::specs::Pieces::do_end))]
fn write_do_end(alloc: Global, out: &mut Text, word: &str, end: &End) -> Result<(), Oom>
    ensures { OnOk result (out.new ≡ out.old ++ do_end word.now end.now) }
{
    out.extend(b",\"do\":")?;
    write_string(alloc, out, word.as_bytes())?;
    out.extend(b",\"end\":")?;
    write_end(alloc, out, end)
}

/// Appends a comma and the members `hazard` and `seq`.
#[tactic(auto, unfolding(crate::specs::Pieces::hazard_seq))]
fn write_hazard_seq(alloc: Global, out: &mut Text, hazard: &Hazard, seq: u32) -> Result<(), Oom>
    ensures { OnOk result (out.new ≡ out.old ++ hazard_seq hazard.now seq) }
{
    out.extend(b",\"hazard\":")?;
    write_string(alloc, out, &hazard_text(hazard))?;
    out.extend(b",\"seq\":")?;
    write_whole(out, seq)
}

/// Appends a comma, the members `texts` and `zones`, and the `}` that ends the object.
fn write_texts_zones(
    alloc: Global,
    out: &mut Text,
    texts: &Texts,
    zones: &[Zone],
) -> Result<(), Oom>
    ensures { OnOk result (out.new ≡ out.old ++ texts_zones texts.now zones.now) }
{
    out.extend(b",\"texts\":")?;
    write_texts(alloc, out, texts)?;
    out.extend(b",\"zones\":")?;
    write_zones(alloc, out, zones)?;
    out.push(b'}')?;
    Ok(())
}

/// Returns the canonical text of an issue that opens an event of `hazard`, without H-VTEC values.
/// `part` is the put of the issue, `desk` the desk that sends the request, and `seq` the number
/// that the desk gives it.
///
/// # Errors
///
/// Out of memory.
#[tactic(auto, using(crate::proofs::PieceLemmas::issue_in_four))]
pub(crate) fn bare_issue_text(
    alloc: Global,
    desk: &Desk,
    seq: u32,
    part: &PutPart,
    hazard: Hazard,
) -> Result<Text, Oom>
    requires target { part.now.target ≡ Fresh hazard }
    requires flood { part.now.flood ≡ None }
    ensures { IfOk result (λ text. text
        ≡ asked_text (record { desk = desk.now; seq = seq; request = Issue part.now })) }
{
    let mut text = Text::from_vec(Vec::with_capacity(alloc, room_of(part))?);
    write_begin_desk(alloc, &mut text, &part.begin, desk)?;
    write_do_end(alloc, &mut text, "issue", &part.end)?;
    write_hazard_seq(alloc, &mut text, &hazard, seq)?;
    write_texts_zones(alloc, &mut text, &part.texts, part.zones.as_slice())?;
    Ok(text)
}
