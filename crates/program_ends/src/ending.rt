//! The end of a run: the line of its fault, and its exit status.
ghost use Rattle.std.specs.Prelude.{◌≡◌, ◌++◌, ℕ, List, Some, codes, false, []};
ghost use Rattle.byte_streams.specs.Flows.{Outflow};
ghost use Rattle.program_ends.specs.Ends.{is_write_fault, fault_line, write_fault_line, Telling, HasWritten, IsTried, TellsText, WritesText};

use crate::ends::End;
use byte_streams::{Sink, write_whole};
use desk_traits::Failed;
use itoa::Buffer;

/// Writes `first` and then `second` to `output`. It errs if a write failed; a prefix of the two
/// texts together may be written then.
pub(crate) fn write_both<K: Sink>(output: &mut K, first: &[u8], second: &[u8]) -> Result<(), Failed>
    ensures { WritesText (K.outflow output.old) (K.outflow output.new) result
        (first.now ++ second.now) }
{
    write_whole(output, first)?;
    write_whole(output, second)
}

/// Writes one line to `output`: `front`, then `value`, then an LF. It errs if a write failed; a
/// prefix of the line may be written then.
fn write_line<K: Sink>(output: &mut K, front: &[u8], value: &[u8]) -> Result<(), Failed>
    ensures { WritesText (K.outflow output.old) (K.outflow output.new) result
        (front.now ++ value.now ++ codes "\n") }
{
    write_both(output, front, value)?;
    write_whole(output, b"\n")
}

/// Writes the line that reports the fault `end`, such as `fault Damaged 1234`, with its LF. It errs
/// if the write failed; a prefix of the line may be written then. It allocates no memory.
fn write_fault<K: Sink>(output: &mut K, end: &End) -> Result<(), Failed>
    ensures { WritesText (K.outflow output.old) (K.outflow output.new) result (fault_line end.now) }
{
    let front = end.front().as_bytes();
    match end {
        End::SettingsRefused(what) => write_line(output, front, what.as_slice()),
        End::Damaged(at) => {
            let mut digits = Buffer::new();
            write_line(output, front, digits.format(*at).as_bytes())
        }
        _ => write_line(output, front, b""),
    }
}

/// Writes the line `fault WriteFault` with its LF to `output`, and returns 8, the exit status of a
/// run in which a write failed. If this write fails too, only a prefix of the line may be written,
/// and 8 is returned all the same.
fn write_fault_of_write<K: Sink>(output: &mut K) -> u8
    ensures status { result ≡ 8 }
    ensures tried { IsTried write_fault_line (K.outflow output.old) (K.outflow output.new) }
{
    let _ = write_fault(output, &End::WriteFault);
    8
}

/// Writes the line that reports the fault `end`, and returns the exit status of the run,
/// `End::status` of that fault. For `None`, a run without a fault, it writes nothing and returns 0.
/// If the write fails, or `end` is `WriteFault`, it returns 8 after it has tried to write the line
/// `fault WriteFault`, of which only a prefix may be written.
///
/// docs/COMMANDS.md, "How a run ends".
pub fn end_run<K: Sink>(output: &mut K, end: Option<End>) -> u8
    ensures { (begun : Outflow) (defined written : List ℕ)
        → HasWritten defined written begun (K.outflow output.old) end
        → Telling defined begun (K.outflow output.new) end result }
{
    let Some(end) = end else {
        return 0;
    };
    if end.is_write_fault() {
        return write_fault_of_write(output);
    }
    match write_fault(output, &end) {
        Ok(()) => end.status(),
        Err(_) => write_fault_of_write(output),
    }
}

/// Writes the line that reports the fault `end`, and returns the exit status, `End::status` of that
/// fault; for a run that has written nothing before. `end` must not be `WriteFault`. If the write
/// fails, it tries to write the line `fault WriteFault`, and returns 8.
pub fn end_at_once<K: Sink>(output: &mut K, end: End) -> u8
    requires { is_write_fault end ≡ false }
    ensures { Telling [] (K.outflow output.old) (K.outflow output.new) (Some end) result }
{
    end_run(output, Some(end))
}

/// Writes `text`, which is all that the run writes, and returns the exit status 0. If the write
/// fails, it tries to write the line `fault WriteFault`, and returns 8.
pub fn tell<K: Sink>(output: &mut K, text: &[u8]) -> u8
    ensures { TellsText text.now (K.outflow output.old) (K.outflow output.new) result }
{
    match write_whole(output, text) {
        Ok(()) => end_run(output, None),
        Err(Failed) => end_run(output, Some(End::WriteFault)),
    }
}
