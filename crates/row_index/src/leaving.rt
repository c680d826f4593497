//! The rows after a product.
ghost use Rattle.std.specs.Prelude.{◌≡◌, IfOk};
ghost use Rattle.event_life.specs.Products.{lawful_of, put_all};
ghost use Rattle.row_index.specs.LineRows.{rows_of_line, rows_of_run, rows_of_runs};
ghost use Rattle.row_index.specs.Steps.{add_each};
ghost use Rattle.row_index.specs.Verdicts.{expand, AreApart, AreFound};

use crate::held::add_held;
use crate::index::RowIndex;
use crate::verdicts::{Run, Verdict, life_after_verdict};
use event_life::Breach;
use hazard_types::{Line, List, Minute, Oom, Zone};
use std::alloc::Global;

impl RowIndex {
    /// Returns the index with the rows that a judged line of a product issued at `t` leaves in
    /// `zones`, in all of which it has this verdict; unchanged if the line is in breach or ROU. On
    /// `Oom` the index is dropped.
    fn add_line(
        self,
        alloc: Global,
        t: Minute,
        verdict: &Verdict,
        zones: &[Zone],
    ) -> Result<Self, Oom>
        ensures { IfOk result
            (λ index. index ≡ add_each (rows_of_line t zones.now verdict.now) self) }
    {
        if !verdict.leaves_row() {
            return Ok(self);
        }
        if zones.is_empty() {
            return Ok(self);
        }
        let left = life_after_verdict(verdict, t);
        let RowIndex {
            mut held,
            mut events,
            mut reach,
        } = self;
        add_held(
            alloc,
            &mut held,
            &mut events,
            &mut reach,
            &verdict.line.event,
            &left,
            zones,
        )?;
        Ok(RowIndex {
            held,
            events,
            reach,
        })
    }

    /// Returns the index with the rows that the lawful lines of a run leave in the run's zones,
    /// line by line. `t` is the product's issue minute. On `Oom` the index is dropped.
    fn add_run(self, alloc: Global, t: Minute, run: &Run) -> Result<Self, Oom>
        ensures { IfOk result (λ index. index ≡ add_each (rows_of_run t run.now) self) }
    {
        let mut index = self;
        for verdict in run.verdicts.as_slice() {
            index = index.add_line(alloc, t, verdict, run.zones.as_slice())?;
        }
        Ok(index)
    }

    /// Returns the index with the rows that the lawful lines of the runs leave, run by run. `t` is
    /// the product's issue minute. On `Oom` the index is dropped.
    fn add_runs(self, alloc: Global, t: Minute, runs: &[Run]) -> Result<Self, Oom>
        ensures { IfOk result (λ index. index ≡ add_each (rows_of_runs t runs.now) self) }
    {
        let mut index = self;
        for run in runs {
            index = index.add_run(alloc, t, run)?;
        }
        Ok(index)
    }

    /// Returns the rows after a product whose lines were judged as these runs, by `judge_parts` or
    /// `judge_lines` of this index. Each lawful line other than ROU leaves its row in each zone of
    /// its run, and no other line changes any. `t` is the product's issue minute.
    ///
    /// # Errors
    ///
    /// Out of memory; the index is dropped.
    pub fn leave_runs(self, alloc: Global, t: Minute, runs: &[Run]) -> Result<Self, Oom>
        requires found { AreFound self runs.now }
        requires apart { AreApart runs.now }
        ensures { IfOk result
            (λ index. index ≡ put_all self t (lawful_of (expand runs.now)) self) }
    {
        let _ = &self.reach;
        self.add_runs(alloc, t, runs)
    }

    /// Returns the rows after a product with these lines, each given with its first breach, or
    /// `None`, as `judge` returns it. Each lawful line other than ROU leaves its row, and no other
    /// line changes any. `self` has the rows just before the product, and `t` is the product's
    /// issue minute.
    ///
    /// # Errors
    ///
    /// Out of memory; the index is dropped.
    pub fn leave(
        self,
        alloc: Global,
        t: Minute,
        judged: &[(Line, Option<Breach>)],
    ) -> Result<Self, Oom>
        ensures { IfOk result (λ index. index ≡ put_all self t (lawful_of judged.now) self) }
    {
        let runs = self.collected(alloc, judged)?;
        self.leave_runs(alloc, t, runs.as_slice())
    }
}
