//! Laws of the program's promise, and of ends that can't fail.
ghost use Rattle.std.specs.Prelude.{ℕ, List};
ghost use Rattle.warn_main.specs.Promise.{Promise};
ghost use Rattle.warn_main.specs.Runs.{DoesAsAsked};
ghost use Rattle.warn_main.specs.Sure.{EndsWithoutDiskFault, EndsWithoutReadFault, EndsWithoutWriteFault, SaysNoDiskFault, ServesNoDiskFault};
ghost use Rattle.warn_main.specs.Worlds.{World};

use byte_streams::{Sink, Source, SureSink, SureSource};
use desk_traits::{Clock, Disk, SureDisk};
use office_core::requests_stand_once;

/// Law: a run that has done what its arguments ask for (`DoesAsAsked`) keeps the program's promise
/// (`Promise`), over any disk and clock. The promise is that accepted requests stand in one legal
/// history, each once, that the texts alone read as the board, and that a crash leaves a prefix of
/// that history with every acknowledged request.
pub fn what_was_done_keeps_the_promise<D: Disk, C: Clock>()
    ensures { (words : List (List ℕ)) (limit : ℕ) (before after : World D C) (status : ℕ)
        → DoesAsAsked D.Disk C.Clock
        words limit before after status
        → Promise D.Disk C.Clock
        words limit before after status }
{
    requests_stand_once();
}

/// Law: over a disk that can't fail no run ends with status 9, a disk fault, and no line or call
/// gets the answer that the disk failed. Over an input whose reads can't fail no run ends with
/// status 7, a read fault, and over an output whose writes can't fail none ends with status 8, a
/// write fault.
pub fn sure_ends_tell_no_fault<D: Disk, C: Clock>()
    ensures disk { EndsWithoutDiskFault ⟦<SureDisk as Disk>⟧ C.Clock }
    ensures lines { SaysNoDiskFault ⟦<SureDisk as Disk>⟧ C.Clock }
    ensures calls { (clock : C) → ServesNoDiskFault ⟦<SureDisk as Disk>⟧ (C.gives clock) }
    ensures input { (source next : SureSource) →
        EndsWithoutReadFault D.Disk C.Clock (⟦<SureSource as Source>⟧.inflow source).faults
        (⟦<SureSource as Source>⟧.inflow next).faults }
    ensures output { (sink next : SureSink) → EndsWithoutWriteFault D.Disk C.Clock
        (⟦<SureSink as Sink>⟧.outflow sink).faults (⟦<SureSink as Sink>⟧.outflow next).faults }
{}
