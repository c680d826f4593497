//! Lines that were judged one by one, as runs of one line.
ghost use Rattle.std.specs.Prelude.{◌≡◌, ◌++◌, ◌∷◌, [], IfOk, OnOk};
ghost use Rattle.row_index.specs.Pending.{further, run_of, same_verdict, with_last, IsJoined, IsWith};
ghost use Rattle.row_index.specs.Verdicts.{expand, AreApart, AreFound};

use crate::held::RowsOf;
use crate::index::RowIndex;
use crate::look::{is_alike, life_of, same_life};
use crate::verdicts::{Run, Verdict};
use event_life::Breach;
use hazard_types::{Line, List, Oom, Zone};
use std::alloc::Global;
use std::mem;

/// A line in zones where it has the same verdict.
#[derive(Drop)]
pub struct Alone {
    pub verdict: Verdict,
    pub zones: List<Zone>,
}

impl Alone {
    /// Appends the zone of the line of `verdict` to the zones of this pending run, whose own
    /// verdict must be the same as `verdict` but for the zone of the line.
    fn put(&mut self, verdict: &Verdict) -> Result<(), Oom>
        ensures { OnOk result (self.new ≡ further self.old verdict.now) }
    {
        self.zones.push(verdict.line.zone)?;
        Ok(())
    }
}

/// Returns a pending run, to which further zones may be added, of one judged line: `verdict`, with
/// the zone of its line as the only one.
fn begun(alloc: Global, verdict: &Verdict) -> Result<Alone, Oom>
    ensures zones { IfOk result (λ a. a.zones ≡ verdict.now.line.zone ∷ []) }
    ensures verdict { IfOk result (λ a. a.verdict ≡ verdict.now) }
{
    let mut zones = List::new(alloc);
    zones.push(verdict.line.zone)?;
    Ok(Alone {
        verdict: *verdict,
        zones,
    })
}

/// Returns a pending run, one line in zones where it has the same verdict, as a run with that one
/// verdict.
fn run_of(alloc: Global, alone: Alone) -> Result<Run, Oom>
    ensures { IfOk result (λ run. run ≡ run_of alone) }
{
    let verdicts = List::from_slice(alloc, &[alone.verdict])?;
    Ok(Run {
        zones: alone.zones,
        verdicts,
    })
}

/// Whether two verdicts have the same life and breach, and their lines differ in their zones at
/// most.
fn same_verdict(a: &Verdict, b: &Verdict) -> bool
    ensures { result ≡ same_verdict a.now b.now }
{
    same_life(&a.found, &b.found) && a.breach == b.breach && is_alike(&a.line, &b.line)
}

/// Adds the zone of the line of `verdict` to the pending run `last` if the verdict of that run is
/// the same but for the zone, and returns whether it is. False if `last` is `None`.
fn join(last: &mut Option<Alone>, verdict: &Verdict) -> Result<bool, Oom>
    ensures { IfOk result (λ joined. IsJoined joined verdict.now last.old last.new) }
{
    match last {
        Some(alone) => {
            if same_verdict(&alone.verdict, verdict) {
                alone.put(verdict)?;
                return Ok(true);
            }
            Ok(false)
        }
        None => Ok(false),
    }
}

/// Appends the pending run `last`, if there is one, to `runs`, and makes `next` the pending one,
/// `last`.
fn begin(
    alloc: Global,
    runs: &mut Vec<Run>,
    last: &mut Option<Alone>,
    next: Alone,
) -> Result<(), Oom>
    ensures { OnOk result (with_last runs.new.items last.new
        ≡ with_last runs.old.items last.old ++ run_of next ∷ []) }
{
    match mem::replace(last, Some(next)) {
        Some(before) => {
            runs.push(run_of(alloc, before)?)?;
            Ok(())
        }
        None => Ok(()),
    }
}

/// Returns the runs, and after them the pending run `last` if there is one.
fn with_pending_run(alloc: Global, runs: Vec<Run>, last: Option<Alone>) -> Result<List<Run>, Oom>
    ensures { IfOk result (λ all. all ≡ with_last runs.items last) }
{
    let mut runs = runs;
    match last {
        Some(alone) => {
            runs.push(run_of(alloc, alone)?)?;
            Ok(List::from_vec(runs))
        }
        None => Ok(List::from_vec(runs)),
    }
}

/// Adds the zone of a judged line to the pending run `last` if the verdict of that run is the same
/// but for the zone. Otherwise appends that run, if there is one, to `runs` and makes the line the
/// pending one.
fn collect(
    alloc: Global,
    runs: &mut Vec<Run>,
    last: &mut Option<Alone>,
    verdict: &Verdict,
) -> Result<(), Oom>
    ensures { OnOk result (IsWith verdict.now
        (with_last runs.old.items last.old) (with_last runs.new.items last.new)) }
{
    let joined = join(last, verdict)?;
    if joined {
        return Ok(());
    }
    begin(alloc, runs, last, begun(alloc, verdict)?)
}

impl RowIndex {
    /// Returns judged lines, each given with its first breach or `None`, as runs of one line each,
    /// in the same order. A run's verdict has the life that `self` has for the event in these
    /// zones. Successive lines that differ in their zones alone and have equal lives and breaches
    /// are one run.
    pub(crate) fn collected(
        &self,
        alloc: Global,
        judged: &[(Line, Option<Breach>)],
    ) -> Result<List<Run>, Oom>
        ensures told { IfOk result (λ runs. expand runs ≡ judged.now) }
        ensures found { IfOk result (λ runs. AreFound self.now runs) }
        ensures apart { IfOk result (λ runs. AreApart runs) }
    {
        let mut runs = Vec::new(alloc);
        let mut last = None;
        let mut near = None;
        let mut rows = RowsOf::none();
        let mut place = 0;
        for found in judged {
            let line = &found.0;
            rows = self.rows_near(&near, rows, &line.event);
            near = Some(line.event);
            let life = life_of(rows.life_at(&mut place, &line.event, &line.zone));
            let verdict = Verdict {
                line: *line,
                found: life,
                breach: found.1,
            };
            collect(alloc, &mut runs, &mut last, &verdict)?;
        }
        with_pending_run(alloc, runs, last)
    }
}
