//! The run of a drill.
ghost use Rattle.std.specs.Prelude.{◌≡◌, ◌⊎◌, ◌≤◌, IfOk};
ghost use Rattle.desk_traits.specs.Faults.{Rose};
ghost use Rattle.desk_drill.specs.Keeping.{IsKept, drilled_of};
ghost use Rattle.desk_drill.specs.Office.{LeadsTo, first_drilled};
ghost use Rattle.desk_drill.specs.Requests.{requests};
ghost use Rattle.desk_drill.specs.Runs.{IsDrillRun, IsSummary};

use crate::desk::DrillDesk;
use crate::draws::Draws;
use crate::requests::request_at;
use crate::summary::summary;
use byte_streams::Sink;
use hazard_types::{Oom, Text};
use office_core::a_request_has_one_answer;
use program_ends::{End, end_at_once, tell};
use std::alloc::Global;

/// A drill: the first state of its random numbers, and its number of requests, at most 8,192.
#[derive(Clone, Copy, Debug)]
pub struct Drill {
    pub number: u64,
    pub count: u32,
}

/// Returns the office of a drill after it has answered all requests of the drill, with its counts.
fn drilled(alloc: Global, drill: &Drill) -> Result<DrillDesk, Oom>
    requires { drill.now.count ≤ 8192 }
    ensures run { IfOk result (λ d. LeadsTo first_drilled
        (requests drill.now.number drill.now.count) (drilled_of d)) }
    ensures kept { IfOk result IsKept }
{
    let mut desk = DrillDesk::new(alloc)?;
    let mut draws = Draws {
        state: drill.number,
    };
    for i in 0..drill.count {
        let request = request_at(alloc, i, &mut draws)?;
        desk.answer(alloc, request)?;
    }
    Ok(desk)
}

/// Runs all requests of a drill and returns its summary: six lines, each a name, a blank, a number
/// and LF, with the names accepted, refused, products, events, shown and breaches, in this order.
fn summary_of(alloc: Global, drill: &Drill) -> Result<Text, Oom>
    requires { drill.now.count ≤ 8192 }
    ensures { IfOk result (IsSummary drill.now.number drill.now.count) }
{
    a_request_has_one_answer();
    let desk = drilled(alloc, drill)?;
    summary(alloc, &desk)
}

/// Runs a drill, writes its summary to `output` and returns the exit status: 0 if all went well, 8
/// if a write failed, 12 if memory ran out. If memory runs out, only the line that reports this is
/// written.
pub fn run_drill<K: Sink>(alloc: Global, drill: &Drill, output: &mut K) -> u8
    requires { drill.now.count ≤ 8192 }
    // The six lines, or the line for out of memory.
    ensures run { IsDrillRun drill.now.number drill.now.count
        (K.outflow output.old) (K.outflow output.new) result }
    // A write fault is reported only if the count rose, and out of memory only if it did not.
    ensures write_fault { result ≡ 8
        → Rose (K.outflow output.old).faults (K.outflow output.new).faults }
    ensures no_memory { result ≡ 12
        → (K.outflow output.new).faults ≡ (K.outflow output.old).faults }
    // If no write failed the six lines were written, unless memory ran out.
    ensures complete { ¬ Rose (K.outflow output.old).faults (K.outflow output.new).faults
        → (result ≡ 0) ⊎ (result ≡ 12) }
{
    match summary_of(alloc, drill) {
        Ok(text) => tell(output, text.as_slice()),
        Err(Oom) => end_at_once(output, End::OutOfMemory),
    }
}
