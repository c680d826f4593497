//! How a run over a disk ends.
ghost use Rattle.std.specs.Prelude.{◌≡◌, [], Some, false};
ghost use Rattle.program_ends.specs.Ends.{Telling, is_write_fault};

use byte_streams::Sink;
use desk_traits::Disk;
use program_ends::{End, end_at_once};

/// The exit status of a run, and the disk that it was given.
#[derive(Drop)]
pub struct Ended<D> {
    pub status: u8,
    pub disk: D,
}

/// Writes the line of the fault `end` for a run that has written nothing, and returns the exit
/// status of that fault with `disk`. `end` is not a write fault; if this write fails, the status is
/// 8.
pub fn ended_at_once<K: Sink, D: Disk>(output: &mut K, disk: D, end: End) -> Ended<D>
    requires { is_write_fault end ≡ false }
    ensures told { Telling [] (K.outflow output.old) (K.outflow output.new) (Some end)
        result.status }
    ensures handed { result.disk ≡ disk }
{
    Ended {
        status: end_at_once(output, end),
        disk,
    }
}
