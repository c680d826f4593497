//! One read of an input, and why a run stops early.
ghost use Rattle.std.specs.Prelude.{◌≡◌, ◌≤◌, length};
ghost use Rattle.program_ends.specs.Steps.{ReadsIntoStart};

use crate::ends::End;
use byte_streams::Source;
use desk_traits::Failed;
use hazard_types::Oom;

/// Why a run stops before the end of its input. `Read` and `Write` are failed calls, `TooLong` an
/// input over the limit.
#[derive(Clone, Copy, Debug, PartialEq, Eq)]
pub enum Stop {
    Read,
    Write,
    TooLong,
    OutOfMemory,
}

impl From<Oom> for Stop {
    ghost use Rattle.program_ends.specs.declared.reading.Stop.TheVariants.{OutOfMemory};

    ghost from_gives = { λ _ s. s ≡ OutOfMemory };

    fn from(_: Oom) -> Self {
        Stop::OutOfMemory
    }
}

impl From<Stop> for End {
    ghost use Rattle.program_ends.specs.Runs.{end_of};

    ghost from_gives = { λ s e. e ≡ end_of s };

    fn from(stop: Stop) -> Self {
        match stop {
            Stop::Read => End::ReadFault,
            Stop::Write => End::WriteFault,
            Stop::TooLong => End::InputTooLong,
            Stop::OutOfMemory => End::OutOfMemory,
        }
    }
}

/// Reads at most `room` bytes into the start of `buffer` and returns how many: 0 only at the
/// input's end, or if `room` is 0.
///
/// # Errors
///
/// `Failed` if the read failed; nothing was read.
pub fn read_some<S: Source>(input: &mut S, buffer: &mut [u8], room: usize) -> Result<usize, Failed>
    requires { room ≤ length buffer.old }
    ensures { ReadsIntoStart (S.inflow input.old) (S.inflow input.new) room result buffer.new }
{
    let count = input.read(&mut buffer[..room])?;
    Ok(count)
}
