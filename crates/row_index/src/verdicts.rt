//! Lines for several zones at once (`Part`), and what was found of them in these zones (`Run`).

ghost use Rattle.std.specs.Prelude.{◌≡◌, ◌++◌, ◌∷◌, [], IfOk, OnOk};
ghost use Rattle.std.specs.List.{list_any};
ghost use Rattle.row_index.specs.Verdicts.{has_breach, is_breach, leaves_row, left_by, lines_in, said_at, said_in, expand, expand_at, expand_run};

use crate::lives::{life_of as life_in, row_with};
use crate::look::in_zone;
use event_life::{Breach, Life, is_routine};
use hazard_types::{Line, List, Minute, Oom, Zone};
use std::alloc::Global;

/// Zones, and the lines that a product has for each of them: those of one segment. The `zone` of a
/// line here is not read.
#[derive(Drop)]
pub struct Part<'a> {
    pub zones: &'a [Zone],
    pub lines: List<Line>,
}

/// A line judged in several zones: the life that it found in each of them, and its first breach
/// there.
#[derive(Clone, Copy)]
pub struct Verdict {
    pub line: Line,
    /// The life of its event just before the product, or `None` if there is no row.
    pub found: Option<Life>,
    /// `None` if the line is lawful or routine.
    pub breach: Option<Breach>,
}

impl Verdict {
    /// Whether the line is lawful, which is to have no breach, and not routine (ROU), so that it
    /// leaves a row in each of its zones.
    pub fn leaves_row(&self) -> bool
        ensures { result ≡ leaves_row self.now }
    {
        !is_routine(&self.line.action) && self.breach.is_none()
    }
}

/// Whether one of the verdicts has a breach, so that its line is not lawful.
fn any_breach(verdicts: &[Verdict]) -> bool
    ensures { result ≡ list_any is_breach verdicts.now }
{
    verdicts.iter().any(|verdict| verdict.breach.is_some())
}

/// Zones in each of which the same lines, in order, found the same lives and have the same
/// breaches.
#[derive(Drop)]
pub struct Run {
    pub zones: List<Zone>,
    pub verdicts: List<Verdict>,
}

impl Run {
    /// Returns a run of `zones`, all those of a part, without a verdict and with capacity for
    /// `room` verdicts.
    ///
    /// # Errors
    ///
    /// Out of memory.
    pub fn whole(alloc: Global, zones: &[Zone], room: usize) -> Result<Run, Oom>
        ensures zones { IfOk result (λ run. run.zones ≡ zones.now) }
        ensures verdicts { IfOk result (λ run. run.verdicts ≡ []) }
    {
        Ok(Run {
            zones: List::from_slice(alloc, zones)?,
            verdicts: List::from_vec(Vec::with_capacity(alloc, room)?),
        })
    }

    /// Returns a run of `zones` with `verdicts` and `verdict` after them.
    ///
    /// # Errors
    ///
    /// Out of memory.
    pub fn part(
        alloc: Global,
        zones: &[Zone],
        verdicts: &[Verdict],
        verdict: &Verdict,
    ) -> Result<Run, Oom>
        ensures zones { IfOk result (λ run. run.zones ≡ zones.now) }
        ensures verdicts { IfOk result (λ run. run.verdicts ≡ verdicts.now ++ verdict.now ∷ []) }
    {
        let mut all = Vec::with_capacity(alloc, verdicts.len() + 1)?;
        all.extend_from_slice(verdicts)?;
        all.push(*verdict)?;
        Ok(Run {
            zones: List::from_slice(alloc, zones)?,
            verdicts: List::from_vec(all),
        })
    }

    /// Whether one of the lines is in breach. `false` for a run without zones.
    pub fn has_breach(&self) -> bool
        ensures { result ≡ has_breach self.now }
    {
        match self.zones.as_slice().first() {
            Some(_zone) => any_breach(self.verdicts.as_slice()),
            None => false,
        }
    }

    /// Appends the lines of the run to `out`, in order and with `zone` as their zone, each with its
    /// first breach, or `None` if it is lawful or ROU.
    fn add_zone(&self, zone: &Zone, out: &mut Vec<(Line, Option<Breach>)>) -> Result<(), Oom>
        ensures { OnOk result
            (out.new.items ≡ out.old.items ++ expand_at self.now.verdicts zone.now) }
    {
        for verdict in self.verdicts.as_slice() {
            out.push((in_zone(&verdict.line, zone), verdict.breach))?;
        }
        Ok(())
    }

    /// Appends the lines of the run to `out`, all of them for its first zone, then for the next,
    /// each with its first breach, or `None` if it is lawful or ROU. The lines have the zone for
    /// which they are appended.
    ///
    /// # Errors
    ///
    /// Out of memory.
    pub fn add_lines_by_zone(&self, out: &mut Vec<(Line, Option<Breach>)>) -> Result<(), Oom>
        ensures { OnOk result (out.new.items ≡ out.old.items ++ expand_run self.now) }
    {
        for zone in self.zones.as_slice() {
            self.add_zone(zone, out)?;
        }
        Ok(())
    }
}

/// Returns the lines of runs, run by run and in each zone by zone, with that zone, each with its
/// first breach, or `None` if it is lawful or ROU.
///
/// # Errors
///
/// Out of memory.
pub fn expand(alloc: Global, runs: &[Run]) -> Result<List<(Line, Option<Breach>)>, Oom>
    ensures { IfOk result (λ judged. judged ≡ expand runs.now) }
{
    let mut out = Vec::new(alloc);
    for run in runs {
        run.add_lines_by_zone(&mut out)?;
    }
    Ok(List::from_vec(out))
}

/// Appends the lines of a part to `out`, with `zone` as their zone.
fn push_lines_of_part(part: &Part<'_>, zone: &Zone, out: &mut Vec<Line>) -> Result<(), Oom>
    ensures { OnOk result (out.new.items ≡ out.old.items ++ said_at part.now.lines zone.now) }
{
    for line in part.lines.as_slice() {
        out.push(in_zone(line, zone))?;
    }
    Ok(())
}

/// Appends the lines of a part to `out` for each of its zones, zone by zone.
fn add_part(part: &Part<'_>, out: &mut Vec<Line>) -> Result<(), Oom>
    ensures { OnOk result (out.new.items ≡ out.old.items ++ said_in part.now) }
{
    for zone in part.zones {
        push_lines_of_part(part, zone, out)?;
    }
    Ok(())
}

/// Returns the lines of parts in each of their zones: part by part, in each zone by zone, and in
/// each zone the part's lines in order.
///
/// # Errors
///
/// Out of memory.
pub fn lines_in(alloc: Global, parts: &[Part<'_>]) -> Result<List<Line>, Oom>
    ensures { IfOk result (λ lines. lines ≡ lines_in parts.now) }
{
    let mut out = Vec::new(alloc);
    for part in parts {
        add_part(part, &mut out)?;
    }
    Ok(List::from_vec(out))
}

/// Returns the life that the line of `verdict` leaves where it found the life `verdict.found`, or
/// no row if that is `None`. The line is taken as lawful, whatever its breach. `t` is the product's
/// issue minute.
pub fn life_after_verdict(verdict: &Verdict, t: Minute) -> Life
    ensures { result ≡ left_by t verdict.now }
{
    let line = &verdict.line;
    let row = match &verdict.found {
        Some(found) => event_life::row_after(&[row_with(&line.event, &line.zone, found)], t, line),
        None => event_life::row_after(&[], t, line),
    };
    life_in(&row)
}
