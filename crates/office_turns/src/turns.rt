//! Turns at a lock over a shared office.
ghost use Rattle.std.specs.Prelude.{◌≡◌};
ghost use Rattle.request_json.specs.Formed.{HasForm};
ghost use Rattle.office_turns.specs.Turns.{SubmitsInTurn};

use crate::jobs::{Look, Submit};
use crate::shared::Story;
use crate::tied::WithStory;
use desk_traits::{Clock, Disk};
use office_journal::{Answer, KeptOffice};
use request_json::Asked;
use std::alloc::Global;
use std::sync::Wait;
use turn_lock::{Pass, TurnLock};

/// Submits the request `asked` to the office in `lock`, in a turn in which no other thread uses it,
/// and returns the answer. It waits by `rt` until the turn comes, and only then reads `clock` for
/// the minute of the request. `pass` is the caller's right to take turns, and must be one of this
/// lock.
pub fn submit_in_turn<R: Wait, D: Disk, C: Clock>(
    rt: &R,
    lock: &TurnLock<WithStory<KeptOffice<D>, Story<D>>>,
    pass: &mut Pass<WithStory<KeptOffice<D>, Story<D>>>,
    alloc: Global,
    asked: &Asked,
    clock: &C,
) -> Answer
    requires pass { pass.old.lock ≡ lock.now }
    requires form { HasForm asked.now }
    ensures { SubmitsInTurn (C.gives clock.now) asked.now pass.old pass.new result }
{
    lock.turn(
        rt,
        pass,
        Submit {
            alloc,
            asked,
            clock,
        },
    )
}

/// Accepts only a value that may move to another thread (`Send`). Does nothing; it is there for the
/// compiler's check.
fn may_cross<X: Send>(_value: &X) {}

/// Accepts only a value that threads may share (`Sync`). Does nothing; it is there for the
/// compiler's check.
fn may_be_shared<X: Sync>(_value: &X) {}

/// Does nothing. It compiles only if threads may share a lock over a shared office (`Sync`), and
/// its passes and the jobs `Submit` and `Look` may move to another thread (`Send`).
fn cross<D: Disk + Send, C: Sync>(
    lock: &TurnLock<WithStory<KeptOffice<D>, Story<D>>>,
    pass: &Pass<WithStory<KeptOffice<D>, Story<D>>>,
    submit: &Submit<'_, C>,
    look: &Look<'_, C>,
) {
    may_be_shared(lock);
    may_cross(pass);
    may_cross(submit);
    may_cross(look);
}
