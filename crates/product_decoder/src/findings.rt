//! The lines in breach, and the gaps in numbers.
ghost use Rattle.std.specs.Prelude.{◌≡◌, ◌<◌, ◌++◌, [], length, map, IfOk, OnOk};
ghost use Rattle.event_life.specs.Openings.{gaps_from, events_opened_by};
ghost use Rattle.event_life.specs.Products.{lawful_of};
ghost use Rattle.product_decoder.specs.ReaderModel.{found_in, gap_found};
ghost use Rattle.product_decoder.specs.Runs.{judged_by, firsts_in, firsts_of};
ghost use Rattle.product_decoder.specs.Takings.{breaches_in, opened_in};

use crate::taken::Taken;
use crate::types::{Found, GapFound};
use event_life::{Breach, Gap, events_opened_by, gaps};
use hazard_types::{Event, Line, List, Oom};
use row_index::{Run, Verdict};
use std::alloc::{AllocError, Global};

/// Appends to `out` each line of `judged` that has a breach, in their order. `product` is the
/// number of their product, counted from 1; `judged` has each line with its first breach, or `None`
/// if it is lawful or routine. `Err` is out of memory.
fn add_found(
    out: &mut List<Found>,
    product: u32,
    judged: &[(Line, Option<Breach>)],
) -> Result<(), Oom>
    ensures { OnOk result (out.new ≡ out.old ++ found_in product judged.now) }
{
    for (line, breach) in judged {
        if let Some(breach) = breach {
            out.push(Found {
                product,
                event: line.event,
                zone: line.zone,
                breach: *breach,
            })?;
        }
    }
    Ok(())
}

/// Appends to `out` the lines of a product that are in breach, in the order of the text. `count` is
/// the number of the product, counted from 1; `Err` is out of memory.
fn add_breaches(
    alloc: Global,
    out: &mut List<Found>,
    count: u32,
    product: &Taken,
) -> Result<(), Oom>
    ensures { OnOk result (out.new ≡ out.old ++ found_in count product.now.judged) }
{
    if !product.has_breach() {
        return Ok(());
    }
    let judged = product.judged(alloc)?;
    add_found(out, count, judged.as_slice())
}

/// Returns the lines that are in breach, product by product in the order of `taken`, and within one
/// in the order of the text. Each has the number of its product, which is 1 for the first of
/// `taken`.
///
/// # Errors
///
/// Out of memory.
pub fn breaches_in(alloc: Global, taken: &[Taken]) -> Result<List<Found>, Oom>
    requires { length taken.now < 4294967296 }
    ensures { IfOk result (λ found. found ≡ breaches_in 1 taken.now) }
{
    let mut out = List::new(alloc);
    for (place, product) in taken.iter().enumerate() {
        add_breaches(alloc, &mut out, place as u32 + 1, product)?;
    }
    Ok(out)
}

/// Appends to `out` the line of each verdict with its breach, or `None` if it is lawful or routine,
/// in the order of the verdicts. Each stands once, not once for each zone. `Err` is out of memory.
fn add_lines(verdicts: &[Verdict], out: &mut Vec<(Line, Option<Breach>)>) -> Result<(), Oom>
    ensures { OnOk result (out.new.items ≡ out.old.items ++ map judged_by verdicts.now) }
{
    for verdict in verdicts {
        out.extend_from_slice(&[(verdict.line, verdict.breach)])?;
    }
    Ok(())
}

/// Appends to `out` the lines of a run, each once, not once for each zone, and each with its
/// breach, or `None` if it is lawful or routine. It does nothing if the run has no zones; `Err` is
/// out of memory.
fn add_firsts(run: &Run, out: &mut Vec<(Line, Option<Breach>)>) -> Result<(), Oom>
    ensures { OnOk result (out.new.items ≡ out.old.items ++ firsts_in run.now) }
{
    match run.zones.as_slice().first() {
        Some(_zone) => add_lines(run.verdicts.as_slice(), out),
        None => Ok(()),
    }
}

/// Returns the lines of the runs that have zones, run by run, each line once, not once for each
/// zone, and each with its breach, or `None` if it is lawful or routine.
fn firsts_of(alloc: Global, runs: &[Run]) -> Result<List<(Line, Option<Breach>)>, Oom>
    ensures { IfOk result (λ firsts. firsts ≡ firsts_of runs.now) }
{
    let mut firsts = Vec::new(alloc);
    for run in runs {
        add_firsts(run, &mut firsts)?;
    }
    Ok(List::from_vec(firsts))
}

/// Returns the events that the lawful NEW lines of a product open, in order by hazard, number and
/// year, each once. The lines of a run have the same events in each of its zones, so they are read
/// for one zone alone.
fn opened_of(alloc: Global, product: &Taken) -> Result<List<Event>, Oom>
    ensures { IfOk result (λ events. events ≡ events_opened_by (lawful_of product.now.judged)) }
{
    let firsts = firsts_of(alloc, product.runs())?;
    events_opened_by(alloc, firsts.as_slice())
}

/// Returns the events that lawful NEW lines of the products open, product by product in the order
/// of `taken`, and within one by hazard, number and year.
fn opened_in(alloc: Global, taken: &[Taken]) -> Result<List<Event>, Oom>
    ensures { IfOk result (λ events. events ≡ opened_in taken.now) }
{
    let mut events = List::new(alloc);
    for product in taken {
        let opened = opened_of(alloc, product)?;
        events.extend(opened.as_slice())?;
    }
    Ok(events)
}

/// Converts a gap (an event opened with a number other than the next one of its hazard and year) to
/// a `GapFound`. A next number greater than 65,535 becomes 65,535.
fn gap_found(gap: &Gap) -> GapFound
    ensures { result ≡ gap_found gap.now }
{
    GapFound {
        hazard: gap.event.hazard,
        year: gap.event.year,
        wanted: gap.wanted.min(65_535) as u16,
        found: gap.event.etn,
    }
}

/// Converts each gap to a `GapFound`, in their order. `Err` is out of memory.
fn all_found(alloc: Global, gaps: &[Gap]) -> Result<Vec<GapFound>, AllocError>
    ensures { IfOk result (λ found. found.items ≡ map gap_found gaps.now) }
{
    gaps.iter().map(|gap| gap_found(gap)).collect(alloc)
}

/// Returns the gaps of the products: the events that were opened with a number other than the next
/// one of their hazard and year. `taken` has the products in the order in which they were taken;
/// the gaps are in that order, and within a product by hazard, number and year.
///
/// # Errors
///
/// Out of memory.
pub fn gaps_in(alloc: Global, taken: &[Taken]) -> Result<List<GapFound>, Oom>
    ensures { IfOk result (λ found. found ≡ map gap_found (gaps_from [] (opened_in taken.now))) }
{
    let opened = opened_in(alloc, taken)?;
    let gaps = gaps(alloc, opened.as_slice())?;
    Ok(List::from_vec(all_found(alloc, gaps.as_slice())?))
}
