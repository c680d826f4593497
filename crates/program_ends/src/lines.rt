//! The run over the lines of an input.
ghost use Rattle.std.specs.Prelude.{◌≡◌, ◌<◌, ◌+◌, ◌^◌, ℕ, List, Option, option_map, IfOk, OnOk, OnErr, IfErr};
ghost use Rattle.byte_streams.specs.Flows.{streams};
ghost use Rattle.program_ends.specs.Lines.{pending_of, lines_from};
ghost use Rattle.program_ends.specs.Replies.{bytes_of};
ghost use Rattle.program_ends.specs.Runs.{IsLinesRun};
ghost use Rattle.program_ends.specs.Steps.{Feeds, Halts, Replies, HaltsAt, IsCauseOf, Runs};

use crate::ending::end_run;
use crate::ends::End;
use crate::line::Line;
use crate::pieces::Pieces;
use crate::reading::Stop;
use crate::reply::Reply;
use byte_streams::{Sink, Source};
use desk_traits::Failed;
use hazard_types::Oom;
use std::alloc::Global;

/// Answers the lines of an input, one after another.
pub trait Answers {
    /// `answers state line text state'`: the line may be answered with these bytes, which leads to
    /// `state'`. A line over the limit is passed as `None`.
    ghost answers: { Self → Option (List ℕ) → List ℕ → Self → Type 0 };

    /// `out_of_memory state line state'`: what the state may be when memory ran out while the line
    /// was answered.
    ghost out_of_memory: { Self → Option (List ℕ) → Self → Type 0 };

    /// Returns the answer to one line of the input. `line` is its bytes without the LF at its end,
    /// or `None` if they are more than 65,536. The answer may depend on the lines that were
    /// answered before, as `self` may change.
    ///
    /// # Errors
    ///
    /// Out of memory, which ends the run.
    fn answer(&mut self, alloc: Global, line: Option<&[u8]>) -> Result<Reply, Oom>
        ensures answered { IfOk result (λ reply. answers self.old
            (option_map (λ bytes. bytes.now) line.entry) (bytes_of reply) self.new) }
        ensures lacked { OnErr result (out_of_memory self.old
            (option_map (λ bytes. bytes.now) line.entry) self.new) };
}

/// Has `answers` answer one line, and writes the answer to `output`. `line` is its bytes without
/// the LF at its end, or `None` if they are more than 65,536. It errs with `OutOfMemory` if memory
/// ran out in the answering, or with `Write` if the write failed, when a prefix of the answer may
/// be written.
fn reply<K: Sink, A: Answers>(
    alloc: Global,
    answers: &mut A,
    line: Option<&[u8]>,
    output: &mut K,
) -> Result<(), Stop>
    ensures told { OnOk result (Replies A.answers answers.old answers.new
        (option_map (λ bytes. bytes.now) line.entry)
        (K.outflow output.old) (K.outflow output.new)) }
    ensures halted { IfErr result (HaltsAt A.answers A.out_of_memory answers.old answers.new
        (option_map (λ bytes. bytes.now) line.entry)
        (K.outflow output.old) (K.outflow output.new)) }
    ensures cause { IsCauseOf Stop.Write
        (K.outflow output.old).faults (K.outflow output.new).faults result }
{
    let reply = answers.answer(alloc, line)?;
    match reply.write(output) {
        Ok(()) => Ok(()),
        Err(Failed) => Err(Stop::Write),
    }
}

/// Answers each line that ends with an LF in `chunk`, the next bytes of the input, in order, and
/// writes the answers to `output`. `line` holds the start of the first of these lines before, and
/// the bytes after the last LF afterwards. It errs at the first line whose answering
/// (`OutOfMemory`) or writing (`Write`) fails.
fn feed<K: Sink, A: Answers>(
    alloc: Global,
    answers: &mut A,
    line: &mut Line,
    chunk: &[u8],
    output: &mut K,
) -> Result<(), Stop>
    ensures fed { OnOk result ((begun : List ℕ) → line.old ≡ pending_of begun
        → Feeds A.answers answers.old answers.new begun chunk.now line.new
        (K.outflow output.old) (K.outflow output.new)) }
    ensures halted { IfErr result (λ why. (begun : List ℕ) → line.old ≡ pending_of begun
        → Halts A.answers A.out_of_memory answers.old answers.new (lines_from begun chunk.now)
        (K.outflow output.old) (K.outflow output.new) why) }
    ensures cause { IsCauseOf Stop.Write
        (K.outflow output.old).faults (K.outflow output.new).faults result }
{
    for byte in chunk {
        if *byte == b'\n' {
            reply(alloc, answers, line.line_at_end(), output)?;
            line.clear();
        } else {
            line.push(*byte);
        }
    }
    Ok(())
}

/// The most bytes of an input that the programs read to its end.
pub const LIMIT: usize = 1_073_741_824;

/// Reads `input` to its end, has `answers` answer each line, and writes the answers to `output`.
/// The lines that end in a piece, the at most 4,096 bytes of one read, are answered before the next
/// piece is read, and the bytes after the last LF are answered as the last line, even if there are
/// none. It errs with `Read` or `Write` if a read or write fails, with `OutOfMemory`, or with
/// `TooLong` if the input has more than `limit` bytes.
fn answer_lines<S: Source, K: Sink, A: Answers>(
    alloc: Global,
    limit: usize,
    answers: &mut A,
    input: &mut S,
    output: &mut K,
) -> Result<(), Stop>
    requires { limit + 1 < 2 ^ 64 }
    ensures run { Runs A.answers A.out_of_memory limit answers.old answers.new
        (streams (S.inflow input.old) (K.outflow output.old))
        (streams (S.inflow input.new) (K.outflow output.new)) result }
    ensures read { IsCauseOf Stop.Read
        (S.inflow input.old).faults (S.inflow input.new).faults result }
    ensures write { IsCauseOf Stop.Write
        (K.outflow output.old).faults (K.outflow output.new).faults result }
{
    let mut line = Line::new(alloc)?;
    let mut pieces = Pieces::up_to(limit);
    let mut buffer = [0u8; 4096];
    while let Some(count) = pieces.next(input, &mut buffer)? {
        feed(alloc, answers, &mut line, &buffer[..count], output)?;
    }
    reply(alloc, answers, line.unended(), output)
}

/// Reads `input` to its end, has `answers` answer each line, writes the answers to `output`, and
/// returns the exit status: 0, or that of the fault that stopped the run, whose line is then
/// written to `output`. The lines that end in a piece, the at most 4,096 bytes of one read, are
/// answered before the next piece is read, and the bytes after the last LF are answered as the last
/// line. An input of more than `limit` bytes stops the run (`InputTooLong`) after the lines that
/// end within the limit are answered.
///
/// docs/DECISIONS.md, "Ends of a program".
pub fn run_lines<S: Source, K: Sink, A: Answers>(
    alloc: Global,
    limit: usize,
    answers: &mut A,
    input: &mut S,
    output: &mut K,
) -> u8
    requires { limit + 1 < 2 ^ 64 }
    ensures { IsLinesRun A.answers A.out_of_memory limit answers.old answers.new
        (streams (S.inflow input.old) (K.outflow output.old))
        (streams (S.inflow input.new) (K.outflow output.new)) result }
{
    match answer_lines(alloc, limit, answers, input, output) {
        Ok(()) => end_run(output, None),
        Err(stop) => end_run(output, Some(End::from(stop))),
    }
}
