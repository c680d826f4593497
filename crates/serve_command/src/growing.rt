//! The history of an office as requests are added.
ghost use Rattle.std.specs.Prelude.{List};
ghost use Rattle.office_journal.specs.declared.kept.KeptOffice.{KeptOffice as Kept};
ghost use Rattle.office_turns.specs.Since.{IsSince};
ghost use Rattle.office_turns.specs.declared.happening.Happening.{Happening};
ghost use Rattle.desk_commands.specs.Opening.{IsOpened};
ghost use Rattle.serve_command.specs.Growing.{HasGrown};

use desk_traits::Disk;
use office_core::requests_stand_once;
use office_journal::KeptOffice;

/// A law: the history of an office that was opened is the history that its disk had then, followed
/// by all that was accepted since.
pub fn an_opened_office_keeps_its_history<D: Disk>(kept: &KeptOffice<D>)
    ensures { (disk : D) (opened : Kept D D.Disk) (happenings : List (Happening D D.Disk))
        → IsOpened D.Disk disk opened → IsSince D.Disk opened kept.now happenings
        → HasGrown D.Disk disk opened kept.now happenings }
{
    requests_stand_once();
    kept.a_crash_leaves_the_history();
}
