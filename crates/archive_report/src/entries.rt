//! Entries that have a line each in a report: gaps and rows.
ghost use Rattle.std.specs.Prelude.{◌≡◌, ◌++◌, ℕ, List, flat_map, OnOk, IfErr};
ghost use Rattle.program_ends.specs.Steps.{IsCauseOf};
ghost use Rattle.archive_report.specs.Pieces.{Halts, Pages};

use crate::lines::write_gap;
use crate::page::flush_if_full;
use board_text::write_row;
use byte_streams::Sink;
use hazard_types::{Oom, Row, Text};
use product_decoder::GapFound;
use program_ends::Stop;
use std::alloc::Global;

/// An entry that has a line in a report.
pub trait Entry {
    /// The line, as contracts see it.
    ghost line: { Self → List ℕ };

    /// Appends the line of the entry, which ends with LF, to `out`.
    ///
    /// # Errors
    ///
    /// Out of memory. The text may then end with a prefix of the line.
    fn put(&self, alloc: Global, out: &mut Text) -> Result<(), Oom>
        ensures { OnOk result (out.new ≡ out.old ++ line self.now) };
}

impl Entry for GapFound {
    ghost use Rattle.archive_report.specs.Report.{gap_line};

    ghost line = { gap_line };

    fn put(&self, alloc: Global, out: &mut Text) -> Result<(), Oom> {
        write_gap(alloc, out, self)
    }
}

impl Entry for Row {
    ghost use Rattle.board_text.specs.Rows.{row_line};

    ghost line = { row_line };

    fn put(&self, alloc: Global, out: &mut Text) -> Result<(), Oom> {
        write_row(alloc, out, self)
    }
}

/// Appends the lines of the entries, in the order of `entries`, to `out`. Each time `out` then has
/// 65,536 bytes or more it is written to `output` and emptied; what is left at the end stays in
/// `out`.
///
/// # Errors
///
/// `Stop::Write` if a write failed, and `Stop::OutOfMemory`. A prefix of `out` and the lines was
/// then written.
pub fn write_entries<E: Entry, K: Sink>(
    alloc: Global,
    out: &mut Text,
    output: &mut K,
    entries: &[E],
) -> Result<(), Stop>
    ensures told { OnOk result (Pages (K.outflow output.old) (K.outflow output.new)
        out.old out.new (flat_map E.line entries.now)) }
    ensures halted { IfErr result (Halts (K.outflow output.old) (K.outflow output.new)
        (out.old ++ flat_map E.line entries.now)) }
    ensures cause { IsCauseOf Stop.Write
        (K.outflow output.old).faults (K.outflow output.new).faults result }
{
    for entry in entries {
        entry.put(alloc, out)?;
        flush_if_full(alloc, out, output)?;
    }
    Ok(())
}
