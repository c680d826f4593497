//! What may be asked of a shared office.
ghost use Rattle.std.specs.Prelude.{◌≡◌, ◌<◌, vec_len, vec_capacity};
ghost use Rattle.request_json.specs.Formed.{HasForm};
ghost use Rattle.turn_lock.specs.Story.{GrowsByOneAtMost};
ghost use Rattle.office_turns.specs.Noting.{Notes};
ghost use Rattle.office_turns.specs.Submitted.{Shown, Submitted};

use crate::happening::Happening;
use crate::shared::Story;
use crate::tied::WithStory;
use desk_traits::Disk;
use hazard_types::{Or, Text};
use office_core::Prepared;
use office_journal::{Answer, KeptOffice};
use office_types::{Query, Refusal};
use request_json::Asked;
use std::alloc::Global;
use std::snapshot::Snapshot;

/// Appends to `happenings` what an answer did to the office: an `Entry` for an accepted request, a
/// `Fault` for a disk fault, and nothing for another answer. `told` is a snapshot of the entry that
/// was prepared, which is given with these two answers, and `now` is one of the office after the
/// answer. `happenings` must have capacity for one more.
fn note<D: Disk>(
    happenings: &mut Vec<Happening<D>>,
    answer: &Answer,
    told: Option<Snapshot<Prepared>>,
    now: Snapshot<KeptOffice<D>>,
)
    requires room { vec_len happenings.old < vec_capacity happenings.old }
    ensures { Notes answer.now told now.value happenings.old.items happenings.new.items }
{
    match answer {
        Answer::Accepted(_) => {
            if let Some(entry) = told {
                happenings.push_reserved(Happening::Entry(entry, now));
            }
        }
        Answer::DiskFault => {
            if let Some(entry) = told {
                happenings.push_reserved(Happening::Fault(entry));
            }
        }
        Answer::Repeated(_) | Answer::Refused(_) | Answer::OutOfMemory => {}
    }
}

impl<D: Disk> WithStory<KeptOffice<D>, Story<D>> {
    /// Submits the request `asked` of a desk to the office, appends to the history what it did (an
    /// entry, a disk fault or nothing), and returns the answer. `reading` is the clock's, in
    /// minutes since 2000-01-01T00:00Z UTC. If there is no memory for the history, the answer is
    /// `OutOfMemory` and nothing is submitted.
    pub fn submit(&mut self, alloc: Global, asked: &Asked, reading: i64) -> Answer
        requires form { HasForm asked.now }
        ensures opened { self.new.story.opened.value ≡ self.old.story.opened.value }

        // Each answer is true after what had happened before, and adds at most one happening to it.
        ensures submitted { Submitted self.old.story.opened.value self.old.story.happenings.items
            self.new.story.happenings.items asked.now reading result }
        ensures grows { GrowsByOneAtMost self.old.story.happenings.items
            self.new.story.happenings.items }
    {
        if self.story.happenings.reserve(1).is_err() {
            return Answer::OutOfMemory;
        }
        let (answer, told) = self
            .kept
            .submit_with_prepared(alloc, asked.desk, asked.seq, &asked.request, reading);
        let now = Snapshot::of(&self.kept);
        note(&mut self.story.happenings, &answer, told, now);
        answer
    }

    /// Returns the text of what `q` asks for: the rows that are live at `reading`, one a line; a
    /// product as it was sent; a draft as JSON; or what a send of a draft would write at the later
    /// of `reading` and the minute of the last entry. `reading` is the clock's, in minutes since
    /// 2000-01-01T00:00Z UTC. Nothing is changed.
    ///
    /// # Errors
    ///
    /// Those of `KeptOffice::look`.
    pub fn look(&self, alloc: Global, q: &Query, reading: i64) -> Result<Text, Or<Refusal>>
        ensures { Shown self.now.story.opened.value self.now.story.happenings.items q.now reading
            result }
    {
        self.kept.look(alloc, q, reading)
    }
}
