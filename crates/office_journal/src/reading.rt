//! What can be read of a `KeptOffice`.
ghost use Rattle.std.specs.Prelude.{◌≡◌, Err, IfOk, length};
ghost use Rattle.hazard_types.specs.declared.or.Or.TheVariants.{No};
ghost use Rattle.office_types.specs.declared.refusal.Refusal.{Refusal as Refused};
ghost use Rattle.office_core.specs.Look.{RefusesLook, Shows};
ghost use Rattle.office_journal.specs.Kept.{disk_of, entries_of, state_of};

use crate::kept::KeptOffice;
use desk_traits::Disk;
use hazard_types::{Or, Text};
use office_types::{Edition, Query, Refusal};
use std::alloc::Global;

impl<D: Disk> KeptOffice<D> {
    /// Returns how many requests were accepted since the journal was made, over all runs of the
    /// program.
    pub fn entries(&self) -> u64
        ensures { result ≡ entries_of self.now }
    {
        self.entries
    }

    /// Returns how many products were sent since the journal was made.
    pub fn products(&self) -> u32
        ensures { result ≡ length (state_of self.now).products }
    {
        self.office.products()
    }

    /// Returns the edition of the texts that are written from now on.
    pub fn edition(&self) -> Edition
        ensures { result ≡ (state_of self.now).edition }
    {
        self.office.edition()
    }

    /// Returns the text of what `q` asks for: the rows that are live at `reading`, one a line; a
    /// product as it was sent, the one with a number or the first above a number; a draft as JSON;
    /// or what a send of a draft would write at the later of `reading` and the minute of the last
    /// entry. `reading` is the clock's, in minutes since 2000-01-01T00:00Z.
    ///
    /// # Errors
    ///
    /// `Or::No` with `ClockOut` for the board and a preview if `reading` is outside 0 to
    /// 52,000,000, with `NoProduct` or `NoDraft` if there is no such product or draft, or for a
    /// preview with the refusal for the first rule that its lines or its text would break;
    /// otherwise out of memory.
    pub fn look(&self, alloc: Global, q: &Query, reading: i64) -> Result<Text, Or<Refusal>>
        ensures shows { IfOk result (λ text. Shows (state_of self.now) q.now reading text) }
        ensures refused { (x : Refused) → result ≡ Err (No x)
            → RefusesLook (state_of self.now) q.now reading x }
    {
        self.office.look(alloc, q, reading)
    }

    /// Gives up the office and returns the disk that has its journal.
    pub fn into_disk(self) -> D
        ensures { result ≡ disk_of self }
    {
        let KeptOffice { journal, .. } = self;
        journal.into_disk()
    }
}
