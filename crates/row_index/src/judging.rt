//! Judging the lines of a product for all zones at once that find the same.

ghost use Rattle.std.specs.Prelude.{◌≡◌, ◌≤◌, ◌++◌, ◌∷◌, [], List as Seq, length, take, map, option_map, true, IfOk, OnOk};
ghost use Rattle.std.specs.List.{AllByRecursion, list_any};
ghost use Rattle.std.specs.Map.{values_of};
ghost use Rattle.hazard_types.specs.declared.line.Line.{Line as LineValue};
ghost use Rattle.event_life.specs.Products.{breach_in, judged};
ghost use Rattle.row_index.specs.Groups.{AreJudged, AreLonger, AreServed, IsAlike, IsAsking, IsLifeIn, IsNext, IsServed, Serves, has_upgrade, zones_of};
ghost use Rattle.row_index.specs.Runs.{in_zone, same_life};
ghost use Rattle.row_index.specs.Seating.{AreSeated, upgrades};
ghost use Rattle.row_index.specs.Steps.{AreOver, IsChanged};
ghost use Rattle.row_index.specs.Verdicts.{AreFirst, first_judged, lines_in, expand, AreApart, AreFound, HaveOwnEvents};
ghost use Rattle.row_index.specs.declared.verdicts.Part.{Part as PartValue};

use crate::apart::are_apart;
use crate::held::RowsOf;
use crate::higher::{Changed, any_upgrades};
use crate::index::RowIndex;
use crate::look::{in_zone, life_of, same_life};
use crate::verdicts::{Part, Run, Verdict, lines_in};
use event_life::{Around, Breach, Life, is_upgrade};
use hazard_types::{Event, Line, List, Minute, Oom, Zone};
use std::alloc::Global;

/// What a line is judged by in one zone after another.
#[derive(Drop)]
struct Asking<'a> {
    t: Minute,
    changed: &'a Changed,
    rows: RowsOf<'a>,
    line: Line,
    around: Around,
}

/// Whether the lives `found` and `life` are equal, or both are `None`.
fn is_found(found: &Option<Life>, life: Option<&Life>) -> bool
    ensures { result ≡ same_life found.now (option_map (λ l. l.now) life.entry) }
{
    match (found, life) {
        (Some(found), Some(life)) => *found == *life,
        (None, None) => true,
        _ => false,
    }
}

/// Returns in how many of the zones, from the first on without a gap, the row of the event has the
/// life `found`, or there is no row if `found` is `None`. `rows` are the event's. `near` is a guess
/// of the first zone's index among those of the rows, which the call may change; a wrong guess only
/// costs time.
fn count_alike(
    rows: &RowsOf<'_>,
    near: &mut usize,
    event: &Event,
    found: &Option<Life>,
    zones: &[Zone],
) -> usize
    ensures within { result ≤ length zones.now }
    ensures alike { AllByRecursion (IsLifeIn rows.now event.now found.now) (take result zones.now) }
{
    let mut count = 0;
    for zone in zones {
        if !is_found(found, rows.life_at(near, event, zone)) {
            return count;
        }
        count += 1;
    }
    count
}

/// Whether two verdicts have the same life that their line found and the same breach; their lines
/// are not compared.
fn have_same_findings(a: &Verdict, b: &Verdict) -> bool
    ensures { result ≡ true → (a.now.found ≡ b.now.found) × (a.now.breach ≡ b.now.breach) }
{
    same_life(&a.found, &b.found) && a.breach == b.breach
}

/// Returns the run with `verdict` after the verdicts that it has.
fn with_verdict(run: Run, verdict: &Verdict) -> Result<Run, Oom>
    ensures zones { IfOk result (λ more. more.zones ≡ run.zones) }
    ensures verdicts { IfOk result (λ more. more.verdicts ≡ run.verdicts ++ verdict.now ∷ []) }
{
    let mut run = run;
    run.verdicts.extend(&[*verdict])?;
    Ok(run)
}

impl RowIndex {
    /// Returns the verdict on the line of `asking`, which has all that the line is judged by, in
    /// `zone`: the life that its event has there, and its first breach there as the first line of
    /// its zone and event. The line in the verdict is that of `asking`, whatever its zone. `near`
    /// is a guess of the row's index among the event's, which the call may change; a wrong guess
    /// only costs time.
    fn verdict_at(&self, asking: &Asking<'_>, near: &mut usize, zone: &Zone) -> Verdict
        requires { IsAsking self.now asking.now }
        ensures line { result.line ≡ asking.now.line }
        ensures found { IsLifeIn self.now asking.now.line.event result.found zone.now }
        ensures breach { (all : Seq LineValue) → IsServed self.now all asking.now zone.now
            → result.breach
            ≡ breach_in self.now asking.now.t all [] (in_zone asking.now.line zone.now) }
    {
        let line = in_zone(&asking.line, zone);
        let found = life_of(asking.rows.life_at(near, &line.event, zone));
        let breach = self.breach_in(
            asking.t,
            asking.changed,
            &asking.rows,
            near,
            &line,
            false,
            asking.around,
        );
        Verdict {
            line: asking.line,
            found,
            breach,
        }
    }

    /// Returns in how many of the zones, from the first on without a gap, the UPG line of `asking`
    /// finds the same life and has the same breach as in `verdict`, its verdict in another zone.
    /// `near` is a guess of the first zone's index among those of the event's rows, which the call
    /// may change; a wrong guess only costs time.
    fn count_upgraded(
        &self,
        asking: &Asking<'_>,
        near: &mut usize,
        verdict: &Verdict,
        zones: &[Zone],
    ) -> usize
        requires asking { IsAsking self.now asking.now }
        requires line { verdict.now.line ≡ asking.now.line }
        ensures within { result ≤ length zones.now }
        ensures judged { (all : Seq LineValue) →
            AllByRecursion (IsServed self.now all asking.now) zones.now
            → AllByRecursion (IsAlike self.now all asking.now verdict.now) (take result zones.now) }
    {
        let mut count = 0;
        for zone in zones {
            let other = self.verdict_at(asking, near, zone);
            if !have_same_findings(&other, verdict) {
                return count;
            }
            count += 1;
        }
        count
    }

    /// Returns the verdict on the line of `asking` in the zone `first`, and how many zones at the
    /// start of `rest` have the same one. A line other than UPG is judged by its event's life in
    /// the zone alone, so for it only these lives are compared. `near` is a guess of the zone's
    /// index among those of the event's rows, which the call may change; a wrong guess only costs
    /// time.
    fn judge_first_zone(
        &self,
        asking: &Asking<'_>,
        near: &mut usize,
        first: &Zone,
        rest: &[Zone],
    ) -> (Verdict, usize)
        requires { IsAsking self.now asking.now }
        ensures line { result.0.line ≡ asking.now.line }
        ensures within { result.1 ≤ length rest.now }
        ensures judged { (all : Seq LineValue) →
            AllByRecursion (IsServed self.now all asking.now) (first.now ∷ rest.now)
            → AllByRecursion (IsAlike self.now all asking.now result.0)
            (first.now ∷ take result.1 rest.now) }
    {
        let verdict = self.verdict_at(asking, near, first);
        if is_upgrade(&asking.line.action) {
            let more = self.count_upgraded(asking, near, &verdict, rest);
            return (verdict, more);
        }
        let event = &asking.line.event;
        let more = count_alike(&asking.rows, near, event, &verdict.found, rest);
        (verdict, more)
    }

    /// Appends runs to `out` that together have `zones` in order, a new one wherever the verdict on
    /// the line of `asking` changes from a zone to the next. Each has `verdicts`, those on the
    /// lines before, and then the verdict on this line. `near` is a guess of the first zone's index
    /// among those of the event's rows, which the call may change.
    fn add_parted(
        &self,
        alloc: Global,
        asking: &Asking<'_>,
        near: &mut usize,
        verdicts: &[Verdict],
        zones: &[Zone],
        out: &mut Vec<Run>,
    ) -> Result<(), Oom>
        requires { IsAsking self.now asking.now }
        ensures zones { OnOk result (zones_of out.new.items ≡ zones_of out.old.items ++ zones.now) }
        ensures judged { (all : Seq LineValue) →
            AllByRecursion (IsNext self.now all asking.now verdicts.now) zones.now
            → AreLonger self.now all asking.now verdicts.now out.old.items
            → OnOk result (AreLonger self.now all asking.now verdicts.now out.new.items) }
    {
        let mut left = zones;
        while let Some((first, rest)) = left.split_first() {
            let (verdict, more) = self.judge_first_zone(asking, near, first, rest);
            out.push(Run::part(alloc, &left[..more + 1], verdicts, &verdict)?)?;
            left = &rest[more..];
        }
        Ok(())
    }

    /// Appends `run` to `out`, split in runs wherever the verdict on the line of `asking` changes
    /// from a zone to the next, each with that verdict after those that `run` has. Appends nothing
    /// if `run` has no zones. `near` is a guess of the first zone's index among those of the
    /// event's rows, which the call may change.
    fn add_verdicts(
        &self,
        alloc: Global,
        asking: &Asking<'_>,
        near: &mut usize,
        run: Run,
        out: &mut Vec<Run>,
    ) -> Result<(), Oom>
        requires { IsAsking self.now asking.now }
        ensures zones { OnOk result (zones_of out.new.items ≡ zones_of out.old.items ++ run.zones) }
        ensures judged { (all : Seq LineValue) →
            AllByRecursion (IsNext self.now all asking.now run.verdicts) run.zones
            → AreLonger self.now all asking.now run.verdicts out.old.items
            → OnOk result (AreLonger self.now all asking.now run.verdicts out.new.items) }
    {
        let zones = run.zones.as_slice();
        let Some((first, rest)) = zones.split_first() else {
            return Ok(());
        };
        let (verdict, more) = self.judge_first_zone(asking, near, first, rest);
        if more < rest.len() {
            let verdicts = run.verdicts.as_slice();
            out.push(Run::part(alloc, &zones[..more + 1], verdicts, &verdict)?)?;
            return self.add_parted(alloc, asking, near, verdicts, &rest[more..], out);
        }
        out.push(with_verdict(run, &verdict)?)?;
        Ok(())
    }

    /// Returns the runs, in order, with the verdict on `line` after those that they have; a run is
    /// split wherever the verdict changes from a zone to the next, and one without zones is left
    /// out. `changed` is what the product changes for the search for higher rows, and `t` is its
    /// issue minute. The line's own zone is not read.
    fn judge_line(
        &self,
        alloc: Global,
        t: Minute,
        changed: &Changed,
        line: &Line,
        runs: Vec<Run>,
    ) -> Result<Vec<Run>, Oom>
        requires counted { AreSeated changed.now.counted.entries }
        requires higher { AreSeated changed.now.higher.entries }
        ensures zones { IfOk result (λ out. zones_of out.items ≡ zones_of runs.items) }
        ensures judged { (all lines : Seq LineValue) → AreJudged self.now t all lines runs.items
            → AllByRecursion (Serves self.now t all changed.now line.now) (zones_of runs.items)
            → IfOk result (λ out. AreJudged self.now t all (lines ++ line.now ∷ []) out.items) }
    {
        let rows = self.rows_of(&line.event);
        let around = self.around(&rows, t, line, true);
        let asking = Asking {
            t,
            changed,
            rows,
            line: *line,
            around,
        };
        let mut near = 0;
        let mut out = Vec::with_capacity(alloc, runs.len())?;
        for run in runs {
            self.add_verdicts(alloc, &asking, &mut near, run, &mut out)?;
        }
        Ok(out)
    }

    /// Returns the runs of one part of a product: they have the part's zones in order, and each has
    /// the verdicts on all of the part's lines in order. `changed` is what the product changes for
    /// the search for higher rows, and `t` is its issue minute.
    fn judge_part(
        &self,
        alloc: Global,
        t: Minute,
        changed: &Changed,
        part: &Part<'_>,
    ) -> Result<Vec<Run>, Oom>
        requires counted { AreSeated changed.now.counted.entries }
        requires higher { AreSeated changed.now.higher.entries }
        ensures zones { IfOk result (λ runs. zones_of runs.items ≡ part.now.zones.now) }
        ensures judged { (all : Seq LineValue) → AreServed self.now t all changed.now part.now
            → IfOk result (λ runs. AreJudged self.now t all part.now.lines runs.items) }
    {
        let mut runs = Vec::with_capacity(alloc, 1)?;
        runs.push(Run::whole(alloc, part.zones, part.lines.len())?)?;
        for line in part.lines.as_slice() {
            runs = self.judge_line(alloc, t, changed, line, runs)?;
        }
        Ok(runs)
    }

    /// Returns the runs of a product's parts, part by part: zones in order, with the verdicts on
    /// the lines of their part. No line may have the zone and event of an earlier one that is not
    /// ROU, and no two lines of a part may have the same event. `t` is the product's issue minute.
    fn judge_apart(&self, alloc: Global, t: Minute, parts: &[Part<'_>]) -> Result<List<Run>, Oom>
        requires first { AreFirst [] (lines_in parts.now) }
        requires events { AllByRecursion (λ (p : PartValue). HaveOwnEvents p.lines) parts.now }
        ensures told { IfOk result (λ runs. expand runs
            ≡ map (first_judged self.now t (lines_in parts.now)) (lines_in parts.now)) }
        ensures found { IfOk result (λ runs. AreFound self.now runs) }
        ensures apart { IfOk result (λ runs. AreApart runs) }
    {
        let changed = self.change_in(alloc, t, parts)?;
        let mut all = Vec::with_capacity(alloc, parts.len())?;
        for part in parts {
            let mut runs = self.judge_part(alloc, t, &changed, part)?;
            all.append(&mut runs)?;
        }
        Ok(List::from_vec(all))
    }

    /// Returns what a product with these parts, issued at `t`, changes for the search for higher
    /// rows: the rows that its lawful lines other than UPG and ROU leave, the keys (zone and event)
    /// of its UPG lines, and the rows before it that may be higher than those of its UPG lines. All
    /// three are empty if it has no UPG line. No line may have the zone and event of an earlier one
    /// that is not ROU.
    fn change_in(&self, alloc: Global, t: Minute, parts: &[Part<'_>]) -> Result<Changed, Oom>
        requires first { AreFirst [] (lines_in parts.now) }
        ensures changed { list_any upgrades (lines_in parts.now) ≡ true
            → IfOk result (λ c. IsChanged self.now t (lines_in parts.now)
            (values_of c.counted.entries) c.upgraded.keys) }
        ensures over { list_any upgrades (lines_in parts.now) ≡ true
            → IfOk result
            (λ c. AreOver self.now t (lines_in parts.now) (values_of c.higher.entries)) }
        ensures counted { IfOk result (λ c. AreSeated c.counted.entries) }
        ensures higher { IfOk result (λ c. AreSeated c.higher.entries) }
    {
        if !upgrade_in(parts) {
            return self.change_of(alloc, t, &[]);
        }
        let lines = lines_in(alloc, parts)?;
        let all = lines.as_slice();
        let counted = self.counted_first(alloc, t, all)?;
        self.change_with(alloc, t, all, counted)
    }

    /// Returns the verdicts on the lines of a product as runs of one line each, in the order of
    /// `lines`; successive lines that differ in their zones alone and have the same verdict are one
    /// run. A line other than ROU with the event and zone of an earlier one other than ROU is in
    /// breach. `self` has the rows just before the product, and `t` is the product's issue minute.
    ///
    /// # Errors
    ///
    /// Out of memory.
    pub fn judge_lines(&self, alloc: Global, t: Minute, lines: &[Line]) -> Result<List<Run>, Oom>
        ensures told { IfOk result (λ runs. expand runs ≡ judged self.now t (lines.now)) }
        ensures found { IfOk result (λ runs. AreFound self.now runs) }
        ensures apart { IfOk result (λ runs. AreApart runs) }
    {
        let judged = self.judge(alloc, t, lines)?;
        self.collected(alloc, judged.as_slice())
    }

    /// Returns the verdicts on the lines of a product as runs, part by part and in each part in the
    /// order of its zones; successive zones with the same verdicts may be one run. A run has all
    /// lines of its part, or, if `are_apart` is false of the parts, one line alone. `parts` must be
    /// in the order of the text, since a line other than ROU with the event and zone of an earlier
    /// one other than ROU is in breach; `self` has the rows just before the product, and `t` is the
    /// product's issue minute.
    ///
    /// # Errors
    ///
    /// Out of memory.
    ///
    /// Source: docs/DECISIONS.md, "The archive's report".
    pub fn judge_parts(
        &self,
        alloc: Global,
        t: Minute,
        parts: &[Part<'_>],
    ) -> Result<List<Run>, Oom>
        ensures told { IfOk result (λ runs. expand runs ≡ judged self.now t (lines_in parts.now)) }
        ensures found { IfOk result (λ runs. AreFound self.now runs) }
        ensures apart { IfOk result (λ runs. AreApart runs) }
    {
        let apart = are_apart(alloc, parts)?;
        if apart {
            return self.judge_apart(alloc, t, parts);
        }
        let lines = lines_in(alloc, parts)?;
        self.judge_lines(alloc, t, lines.as_slice())
    }
}

/// Whether one of the lines of the parts is UPG.
fn upgrade_in(parts: &[Part<'_>]) -> bool
    ensures { result ≡ list_any has_upgrade parts.now }
{
    for part in parts {
        if any_upgrades(part.lines.as_slice()) {
            return true;
        }
    }
    false
}
