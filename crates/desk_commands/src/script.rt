//! The command `script`.
ghost use Rattle.std.specs.Prelude.{◌≡◌, ◌+◌, ◌<◌, ◌^◌, ◌⊎◌};
ghost use Rattle.byte_streams.specs.Flows.{streams};
ghost use Rattle.request_json.specs.Formed.{HasForm};
ghost use Rattle.request_json.specs.Replies.{out_of_memory_text};
ghost use Rattle.program_ends.specs.Replies.{bytes_of};
ghost use Rattle.desk_commands.specs.Opening.{IsOpened, IsUnopenedRun, IsUnread};
ghost use Rattle.desk_commands.specs.Lines.{ended, refusal_line};
ghost use Rattle.office_journal.specs.Given.{Gave};
ghost use Rattle.desk_commands.specs.Scripts.{IsJudged};
ghost use Rattle.desk_commands.specs.Commands.{AnswersLines, IsScriptRun};
ghost use Rattle.desk_commands.specs.Held.{HasReferences, scripted};

use crate::ended::{Ended, ended_at_once};
use crate::opening::open;
use byte_streams::{Sink, Source};
use desk_traits::{Clock, Disk};
use hazard_types::{Oom, Or};
use office_core::requests_stand_once;
use office_journal::{Answer, KeptOffice};
use office_types::Refusal;
use program_ends::{Answers, Reply, run_lines};
use request_json::{Asked, disk_fault_text, out_of_memory_text, read_request, refusal_text};
use std::alloc::Global;

/// An office over its journal, and the clock at whose readings its lines are judged.
#[derive(Drop)]
pub struct Script<'a, D: Disk, C: Clock> {
    kept: &'a mut KeptOffice<D>,
    clock: &'a mut C,
}

/// Returns the JSON text of a refusal as the reply to a line, or the fixed reply for out of memory
/// if memory runs out for that text.
fn refusal_reply(alloc: Global, refusal: &Refusal) -> Reply
    ensures { (bytes_of result ≡ refusal_line refusal.now)
        ⊎ (bytes_of result ≡ ended out_of_memory_text) }
{
    match refusal_text(alloc, refusal) {
        Ok(text) => Reply::Line(text),
        Err(_) => Reply::Fixed(out_of_memory_text()),
    }
}

impl<'a, D: Disk, C: Clock> Script<'a, D, C> {
    /// Submits a request to the office and returns the reply as a line: the stored reply if it is
    /// accepted or repeated, else the refusal or the fault. `reading` is the clock's, in minutes
    /// since 2000-01-01T00:00Z.
    fn judge(&mut self, alloc: Global, asked: &Asked, reading: i64) -> Reply
        requires form { HasForm asked.now }
        ensures judged { (gave : Gave)
            × IsJudged D.Disk asked.now reading self.old.kept.now (bytes_of result)
            self.new.kept.now gave }
        ensures clock { self.new.clock.now ≡ self.old.clock.now }
        ensures references { HasReferences self.old self.new }
    {
        match self
            .kept
            .submit(alloc, asked.desk, asked.seq, &asked.request, reading)
        {
            Answer::Accepted(reply) => Reply::Line(reply.into_text()),
            Answer::Repeated(reply) => Reply::Line(reply.into_text()),
            Answer::Refused(refusal) => refusal_reply(alloc, &refusal),
            Answer::DiskFault => Reply::Fixed(disk_fault_text()),
            Answer::OutOfMemory => Reply::Fixed(out_of_memory_text()),
        }
    }
}

impl<'a, D: Disk, C: Clock> Answers for Script<'a, D, C> {
    ghost use Rattle.desk_commands.specs.Held.{HasReferences, scripted};
    ghost use Rattle.desk_commands.specs.Scripts.{Answers as Replies};

    ghost answers = { λ s line text next. HasReferences s next
        × Replies D.Disk C.Clock (scripted s) line text (scripted next) };

    ghost out_of_memory = { λ _ _ _. ⊥ };

    /// Returns the office's reply to a line: nothing to an empty line, and the refusal
    /// `LineTooLong` for `None`. The clock is read once for each line that is not empty. It never
    /// errs.
    fn answer(&mut self, alloc: Global, line: Option<&[u8]>) -> Result<Reply, Oom> {
        let Some(bytes) = line else {
            let _ = self.clock.tick();
            return Ok(refusal_reply(alloc, &Refusal::LineTooLong));
        };
        if bytes.is_empty() {
            return Ok(Reply::Nothing);
        }
        let reading = self.clock.tick();
        match read_request(alloc, bytes) {
            Ok(asked) => Ok(self.judge(alloc, &asked, reading)),
            Err(Or::No(refusal)) => Ok(refusal_reply(alloc, &refusal)),
            Err(Or::OutOfMemory) => Ok(Reply::Fixed(out_of_memory_text())),
        }
    }
}

/// Writes the answer of the office in the journal to each line of the input that is not empty, one
/// request a line, and returns the exit status and the disk; an input of more than `limit` bytes
/// ends the run (`InputTooLong`) after the lines that end within the limit. The clock is read once
/// for each line that is not empty. If the office can't be opened, the line of the fault is
/// written, and nothing of the input is read.
pub fn run_script<S: Source, K: Sink, D: Disk, C: Clock>(
    alloc: Global,
    limit: usize,
    input: &mut S,
    output: &mut K,
    disk: D,
    clock: &mut C,
) -> Ended<D>
    requires { limit + 1 < 2 ^ 64 }
    ensures { (IsUnread (S.inflow input.old) (S.inflow input.new)
        × IsUnopenedRun D.Disk disk result.disk
        (K.outflow output.old) (K.outflow output.new) result.status
        × (clock.new ≡ clock.old))
        ⊎ IsScriptRun D.Disk C.Clock disk result.disk clock.old clock.new limit
        (streams (S.inflow input.old) (K.outflow output.old))
        (streams (S.inflow input.new) (K.outflow output.new)) result.status }
{
    match open(alloc, disk) {
        Ok(kept) => answer_script(alloc, limit, input, output, kept, clock),
        Err((disk, end)) => ended_at_once(output, disk, end),
    }
}

/// Writes the answer of the office `kept` to each line of the input that is not empty, one request
/// a line, and returns the exit status with the journal's disk. `clock` is read once for each line
/// that is not empty. An input of more than `limit` bytes ends the run (`InputTooLong`) after the
/// lines that end within the limit.
fn answer_script<S: Source, K: Sink, D: Disk, C: Clock>(
    alloc: Global,
    limit: usize,
    input: &mut S,
    output: &mut K,
    mut kept: KeptOffice<D>,
    clock: &mut C,
) -> Ended<D>
    requires { limit + 1 < 2 ^ 64 }
    ensures { (disk : D) → IsOpened D.Disk disk kept →
        IsScriptRun D.Disk C.Clock disk result.disk clock.old clock.new limit
        (streams (S.inflow input.old) (K.outflow output.old))
        (streams (S.inflow input.new) (K.outflow output.new)) result.status }
{
    requests_stand_once();
    kept.a_crash_leaves_the_history();
    let status = answer_lines(alloc, limit, input, output, &mut kept, clock);
    kept.a_crash_leaves_the_history();
    Ended {
        status,
        disk: kept.into_disk(),
    }
}

/// Writes the answer of the office `kept` to each line of the input that is not empty, one request
/// a line, ends the run and returns the exit status. `clock` is read once for each line that is not
/// empty. An input of more than `limit` bytes ends the run (`InputTooLong`) after the lines that
/// end within the limit.
fn answer_lines<S: Source, K: Sink, D: Disk, C: Clock>(
    alloc: Global,
    limit: usize,
    input: &mut S,
    output: &mut K,
    kept: &mut KeptOffice<D>,
    clock: &mut C,
) -> u8
    requires { limit + 1 < 2 ^ 64 }
    ensures { AnswersLines D.Disk C.Clock limit
        (record { kept = kept.old; clock = clock.old })
        (record { kept = kept.new; clock = clock.new })
        (streams (S.inflow input.old) (K.outflow output.old))
        (streams (S.inflow input.new) (K.outflow output.new)) result }
{
    let mut script = Script { kept, clock };
    run_over(alloc, limit, &mut script, input, output)
}

/// Writes the answer of `script` to each line of the input that is not empty, ends the run and
/// returns the exit status. An input of more than `limit` bytes ends the run (`InputTooLong`) after
/// the lines that end within the limit.
fn run_over<S: Source, K: Sink, D: Disk, C: Clock>(
    alloc: Global,
    limit: usize,
    script: &mut Script<'_, D, C>,
    input: &mut S,
    output: &mut K,
) -> u8
    requires { limit + 1 < 2 ^ 64 }
    ensures run { AnswersLines D.Disk C.Clock limit (scripted script.old) (scripted script.new)
        (streams (S.inflow input.old) (K.outflow output.old))
        (streams (S.inflow input.new) (K.outflow output.new)) result }
    ensures references { HasReferences script.old script.new }
{
    run_lines(alloc, limit, script, input, output)
}
