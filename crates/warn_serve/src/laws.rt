//! Laws of the ends of links. They have no code.
ghost use Rattle.std.specs.Prelude.{◌≡◌, ℕ, List};
ghost use Rattle.desk_links.specs.Links.{LinkState};
ghost use Rattle.office_journal.specs.declared.kept.KeptOffice.{KeptOffice};
ghost use Rattle.office_turns.specs.declared.happening.Happening.{Happening};
ghost use Rattle.turn_lock.specs.Passes.{PassRecord};
ghost use Rattle.warn_serve.specs.Calls.{AnswersCall, LosesCall};
ghost use Rattle.warn_serve.specs.Causes.{EndAlike, HasCause};
ghost use Rattle.warn_serve.specs.Links.{IsServedLink};
ghost use Rattle.warn_serve.specs.Wholes.{IsWhole};
ghost use Rattle.warn_serve.specs.declared.links.LinkEnd.{LinkEnd};

use desk_traits::{Clock, Disk};

/// A link has a `LinkEnd` only if the cause that this names has come about. The causes of `Closed`,
/// `Cut` and `Spent` exclude one another, so two links with the same bytes read, which neither
/// failed nor ran out of memory, end in the same way. The one exception is bytes that end within
/// the target of a bad head: they may be refused (`Closed`), or cut by the end of the input.
pub fn links_end_by_their_causes<D: Disk, C: Clock>()
    ensures cause { (clock : C) (old new : LinkState)
        (pass pass' : PassRecord (KeptOffice D D.Disk) (Happening D D.Disk)) (end : LinkEnd)
        (served : IsServedLink (AnswersCall (C.gives clock))
        (LosesCall (C.gives clock)) old new pass pass' end)
        → HasCause old new served.read end }
    ensures apart { (old new old' new' : LinkState) (read : List ℕ) (end other : LinkEnd)
        → IsWhole end → IsWhole other
        → HasCause old new read end → HasCause old' new' read other → EndAlike read end other }
    ensures alike { (clock clock' : C) (old new old' new' : LinkState)
        (pass pass' next next' : PassRecord (KeptOffice D D.Disk) (Happening D D.Disk))
        (end other : LinkEnd)
        (one : IsServedLink (AnswersCall (C.gives clock))
        (LosesCall (C.gives clock)) old new pass pass' end)
        (two : IsServedLink (AnswersCall (C.gives clock'))
        (LosesCall (C.gives clock')) old' new' next next' other)
        → one.read ≡ two.read → IsWhole end → IsWhole other → EndAlike one.read end other }
{}
