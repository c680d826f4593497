//! What is kept of a product: its lines of an office and class, judged by the rows before it.
ghost use Rattle.std.specs.Prelude.{◌≡◌, IfOk};
ghost use Rattle.std.specs.List.{list_any};
ghost use Rattle.std.specs.Str.{bytes_eq};
ghost use Rattle.event_life.specs.Lives.{judged_product};
ghost use Rattle.event_life.specs.Products.{event_of, end_of, line_of, lines_of};
ghost use Rattle.product_decoder.specs.ReaderModel.{is_vtec_by, is_by, zone_line_of_pair, said_by, product_of};
ghost use Rattle.product_decoder.specs.Runs.{in_breach};
ghost use Rattle.product_decoder.specs.Takings.{IsKnown, same_named, line_of_event, rows_taken};
ghost use Rattle.row_index.specs.Verdicts.{has_breach, expand, AreApart, AreFound};

use crate::types::{Decoded, ZonePair};
use event_life::Breach;
use hazard_types::{Class, End, Event, Line, List, Minute, Oom, Vtec};
use row_index::{RowIndex, Run, expand};
use std::alloc::Global;
use std::marker::Model;

/// What is kept of a product: its issue minute, and its lines of the office and class with their
/// breaches.
#[derive(Drop)]
pub struct Taken {
    issue: Minute,
    runs: List<Run>,
}

impl Model for Taken {
    ghost use Rattle.product_decoder.specs.Runs.{Taken as TakenValue};
    ghost use Rattle.row_index.specs.Verdicts.{expand, AreApart};

    ghost Value = { TakenValue };

    ghost view = { λ x. record { issue = x.issue; judged = expand x.runs } };

    ghost invariant = { λ x. AreApart x.runs };
}

/// Whether a line of the runs is in breach.
fn any_breach(runs: &[Run]) -> bool
    ensures { result ≡ list_any has_breach runs.now }
{
    runs.iter().any(|run| run.has_breach())
}

impl Taken {
    /// Returns what is kept of a product with this issue minute: `runs`, its lines of the office
    /// and class with their breaches. No two lines of a run may have the same event.
    pub fn new(issue: Minute, runs: List<Run>) -> Self
        requires { AreApart runs }
        ensures issue { result.issue ≡ issue }
        ensures judged { result.judged ≡ expand runs }
    {
        Taken { issue, runs }
    }

    /// Returns the issue minute of the product.
    pub fn issue(&self) -> Minute
        ensures { result ≡ self.now.issue }
    {
        self.issue
    }

    /// Returns the lines of the office and class with their breaches, as runs in the order of the
    /// text. A run has zones in which the same lines have the same breaches; no two lines of a run
    /// have the same event.
    pub fn runs(&self) -> &[Run]
        ensures judged { expand result.now ≡ self.now.judged }
        ensures apart { AreApart result.now }
    {
        self.runs.as_slice()
    }

    /// Whether one of the product's lines of the office and class is in breach.
    pub fn has_breach(&self) -> bool
        ensures { result ≡ list_any in_breach self.now.judged }
    {
        any_breach(self.runs.as_slice())
    }

    /// Returns the lines of the office and class in the order of the text, each with its first
    /// breach, or `None` if it is lawful or routine.
    ///
    /// # Errors
    ///
    /// Out of memory.
    pub fn judged(&self, alloc: Global) -> Result<List<(Line, Option<Breach>)>, Oom>
        ensures { IfOk result (λ judged. judged ≡ self.now.judged) }
    {
        expand(alloc, self.runs.as_slice())
    }
}

/// Whether two offices are equal, byte by byte: `==` of arrays takes ten times as long.
fn same_office(a: [u8; 4], b: [u8; 4]) -> bool
    ensures { result ≡ bytes_eq a b }
{
    a[0] == b[0] && a[1] == b[1] && a[2] == b[2] && a[3] == b[3]
}

/// Whether a P-VTEC line is of an office and class.
pub fn is_vtec_by(office: &[u8; 4], class: &Class, vtec: &Vtec) -> bool
    ensures { result ≡ is_vtec_by office.now class.now vtec.now }
{
    same_office(vtec.office, *office) && vtec.class == *class
}

/// Whether the P-VTEC line of `pair` is of an office and class.
pub fn is_by(office: &[u8; 4], class: &Class, pair: &ZonePair) -> bool
    ensures { result ≡ is_by office.now class.now pair.now }
{
    is_vtec_by(office, class, &pair.vtec)
}

/// A P-VTEC line and its event.
#[derive(Clone, Copy)]
pub struct Known {
    pub vtec: Vtec,
    pub event: Event,
}

/// Whether two P-VTEC lines of one product have the same number, action and hazard, so that they
/// name the same event.
fn same_named(a: &Vtec, b: &Vtec) -> bool
    ensures { result ≡ same_named a.now b.now }
{
    a.etn == b.etn && a.action == b.action && a.hazard == b.hazard
}

/// Returns the event of a P-VTEC line: the one with its hazard and number that is open in `rows`,
/// those just before its product, of several the latest; for NEW, or if none is open, it is of the
/// year of the issue minute `t`. `known` is an earlier P-VTEC line of the product with its event,
/// or `None` if none is at hand; if it has the same number, action and hazard, its event is
/// returned without a look-up.
pub fn event_of(rows: &RowIndex, t: Minute, known: &Option<Known>, vtec: &Vtec) -> Event
    requires { IsKnown rows.now t known.now }
    ensures { result ≡ event_of rows.now t vtec.now }
{
    match known {
        Some(before) => {
            if same_named(&before.vtec, vtec) {
                before.event
            } else {
                rows.event_of(t, vtec)
            }
        }
        None => rows.event_of(t, vtec),
    }
}

/// Returns the end of a P-VTEC line, where `None`, which a text prints as zeros, is until further
/// notice.
///
/// Source: NWS Instruction 10-1703, P-VTEC event ending date and time.
pub fn end_of(end: &Option<Minute>) -> End
    ensures { result ≡ end_of end.now }
{
    match end {
        Some(minute) => End::At(*minute),
        None => End::Ufn,
    }
}

/// Returns the line of `event` that `pair`, a P-VTEC line in one zone with its H-VTEC values, says.
/// An end of zeros becomes until further notice.
fn line_of_event(event: &Event, pair: &ZonePair) -> Line
    ensures { result ≡ line_of_event event.now (zone_line_of_pair pair.now) }
{
    Line {
        action: pair.vtec.action,
        event: *event,
        zone: pair.zone,
        begin: pair.vtec.begin,
        end: end_of(&pair.vtec.end),
        flood: pair.flood,
    }
}

/// Returns the line that `pair`, a P-VTEC line in one zone, says, with the event that it names,
/// given `rows`, those just before its product, and the product's issue minute `t`. `known` is an
/// earlier P-VTEC line of the product with its event, or `None`; it only saves a look-up.
fn line_of(rows: &RowIndex, t: Minute, known: &Option<Known>, pair: &ZonePair) -> Line
    requires { IsKnown rows.now t known.now }
    ensures { result ≡ line_of rows.now t (zone_line_of_pair pair.now) }
{
    let event = event_of(rows, t, known, &pair.vtec);
    line_of_event(&event, pair)
}

/// Returns the lines of an office and class that the pairs say, in their order, each with its
/// event. `rows` are the rows just before the product, and `t` is its issue minute.
fn lines_by(
    alloc: Global,
    office: &[u8; 4],
    class: &Class,
    rows: &RowIndex,
    t: Minute,
    pairs: &[ZonePair],
) -> Result<List<Line>, Oom>
    ensures { IfOk result
        (λ lines. lines ≡ lines_of rows.now t (said_by office.now class.now pairs.now)) }
{
    let mut lines = List::new(alloc);
    let mut known = None;
    for pair in pairs {
        if is_by(office, class, pair) {
            let line = line_of(rows, t, &known, pair);
            let event = line.event;
            let vtec = pair.vtec;
            lines.extend(&[line])?;
            known = Some(Known { vtec, event });
        }
    }
    Ok(lines)
}

/// Returns the lines of an office and class that product `d` has, judged by `rows`, those just
/// before the product. They come as runs in the order of the text. A run has zones in which the
/// same lines found the same lives and have the same breaches; no two lines of a run have the same
/// event.
///
/// # Errors
///
/// Out of memory.
pub fn judged_lines(
    alloc: Global,
    office: &[u8; 4],
    class: &Class,
    rows: &RowIndex,
    d: &Decoded,
) -> Result<List<Run>, Oom>
    ensures told { IfOk result
        (λ runs. expand runs ≡ judged_product rows.now (product_of office.now class.now d.now)) }
    ensures found { IfOk result (λ runs. AreFound rows.now runs) }
    ensures apart { IfOk result (λ runs. AreApart runs) }
{
    let lines = lines_by(alloc, office, class, rows, d.issue, d.pairs.as_slice())?;
    rows.judge_lines(alloc, d.issue, lines.as_slice())
}

/// Returns the rows that products leave, taken one after another in their order, from no rows on.
///
/// # Errors
///
/// Out of memory.
pub fn rows_taken(alloc: Global, taken: &[Taken]) -> Result<RowIndex, Oom>
    ensures { IfOk result (λ rows. rows ≡ rows_taken taken.now) }
{
    let mut rows = RowIndex::new(alloc);
    for product in taken {
        let judged = product.judged(alloc)?;
        rows = rows.leave(alloc, product.issue(), judged.as_slice())?;
    }
    Ok(rows)
}
