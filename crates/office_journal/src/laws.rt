//! Laws of journals and histories. The functions do nothing; their contracts are the laws.
ghost use Rattle.std.specs.Prelude.{◌≡◌, ℕ, List, Option, Some};
ghost use Rattle.journal_core.specs.Image.{Fresh};
ghost use Rattle.office_journal.specs.Changes.{Change, Leaves};
ghost use Rattle.office_journal.specs.Damage.{IsDamagedAt};
ghost use Rattle.office_journal.specs.Histories.{History, ImageOf};
ghost use Rattle.office_journal.specs.Kept.{Holds, disk_of};
ghost use Rattle.office_journal.specs.SentAgain.{HasOneEffect};

use crate::kept::KeptOffice;
use desk_traits::Disk;
use journal_core::{a_crash_leaves_the_bodies, read_in_one_way};
use office_core::a_request_has_one_answer;
use request_json::canonical_texts_are_lines;

impl<D: Disk> KeptOffice<D> {
    /// A crash now leaves a journal of the office's history, or of this history and the pending
    /// change after it. A change is pending if a fault of the disk has interrupted its append.
    pub fn a_crash_leaves_the_history(&self)
        ensures { (file : List ℕ) (h : History) (pending : Option Change) (c : List ℕ)
            → Holds D.seen D.crash self.now file h pending
            → (D.crash (disk_of self.now)).may_leave c → Leaves file h
            (λ change. pending ≡ Some change) c }
    {
        a_crash_leaves_the_bodies();
    }

    /// A request that is in the history as the last of its desk, and is submitted again, has no
    /// further effect, whether or not it was answered before a crash. At any reading of the clock
    /// the answer is `Repeated` with the same reply, or `OutOfMemory`, and nothing changes.
    pub fn a_request_sent_again_has_one_effect(&self)
        ensures { HasOneEffect D.seen D.crash D.faults self.now }
    {}
}

/// A file is the journal of at most one settings' text and history. If it is such a journal, it is
/// neither damaged nor fresh (at most one byte, or `.` first). A damaged file is damaged at one
/// place.
pub fn files_hold_one_history()
    ensures one { (bytes file other : List ℕ) (h g : History) → ImageOf bytes file h
        → ImageOf bytes other g → (file ≡ other) × (h ≡ g) }
    ensures damaged { (bytes file : List ℕ) (h : History) (at : ℕ) → ImageOf bytes file h
        → IsDamagedAt bytes at → ⊥ }
    ensures place { (bytes : List ℕ) (at other : ℕ) → IsDamagedAt bytes at → IsDamagedAt bytes other
        → at ≡ other }
    ensures fresh { (bytes file : List ℕ) (h : History) → ImageOf bytes file h → Fresh bytes → ⊥ }
{
    a_request_has_one_answer();
    canonical_texts_are_lines();
    read_in_one_way();
}
