//! The run of the arguments, with the promise of the program.
ghost use Rattle.std.specs.Prelude.{◌≡◌, None};
ghost use Rattle.program_ends.specs.Lines.{most_bytes};
ghost use Rattle.desk_program.specs.Runs.{DoesAsAsked as DoesAlone};
ghost use Rattle.desk_program.specs.Worlds.{world as world_alone};
ghost use Rattle.serve_command.specs.Words.{parse_serve_args};
ghost use Rattle.warn_main.specs.Promise.{Promise};
ghost use Rattle.warn_main.specs.Worlds.{world};

use crate::laws::what_was_done_keeps_the_promise;
use byte_streams::{Sink, Source};
use desk_commands::Ended;
use desk_links::{Gate, Port};
use desk_program::desk_within;
use desk_traits::{Clock, Disk};
use hazard_types::{List, Text};
use program_ends::LIMIT;
use serve_command::{Means, parse_serve_args, run_serve};
use std::alloc::Global;
use std::sync::Wait;
use std::thread::Threads;

/// Runs the command of the arguments, which is not `serve`, with an input of at most 1,073,741,824
/// bytes, and returns the exit status and the disk. If the arguments are no command, the line of
/// the fault `Usage` is written, and the status is 2, or 8 if that write fails.
pub fn desk_alone<S: Source, K: Sink, D: Disk, C: Clock>(
    alloc: Global,
    words: &List<Text>,
    input: &mut S,
    output: &mut K,
    disk: D,
    clock: &mut C,
) -> Ended<D>
    requires { parse_serve_args words.now ≡ None }
    ensures { DoesAlone D.Disk C.Clock words.now most_bytes
        (world_alone (S.inflow input.old) (K.outflow output.old) disk clock.old)
        (world_alone (S.inflow input.new) (K.outflow output.new) result.disk clock.new)
        result.status }
{
    desk_within(alloc, words, input, output, disk, clock, LIMIT)
}

/// Runs the command of the arguments `words`, with an input of at most 1,073,741,824 bytes, and
/// returns the exit status and the disk; for arguments that are no command the line of the fault
/// `Usage` is written, and the status is 2, or 8 if that write fails. Only `serve` uses `port`, for
/// its links, and `gate`, whose hooks are called around each call of a link. The clause `promise`
/// is the promise of the program: accepted requests stand in one legal history, each once, the
/// texts alone read as the board, and a crash leaves a prefix of that history.
pub fn desk_run<
    R: Threads + Wait + Sync,
    S: Source,
    K: Sink,
    D: Disk + Send,
    P: Port,
    C: Clock + Sync,
    G: Gate + Sync,
>(
    rt: &R,
    alloc: Global,
    words: &List<Text>,
    input: &mut S,
    output: &mut K,
    disk: D,
    port: &mut P,
    clock: &mut C,
    gate: &G,
) -> Ended<D>
    requires { (P.state port.old).returned ≡ 0 }
    ensures promise { Promise D.Disk C.Clock words.now most_bytes
        (world (S.inflow input.old) (K.outflow output.old) disk clock.old
        (P.state port.old))
        (world (S.inflow input.new) (K.outflow output.new) result.disk clock.new
        (P.state port.new))
        result.status }
    ensures port { parse_serve_args words.now ≡ None → port.new ≡ port.old }
{
    what_was_done_keeps_the_promise::<D, C>();
    match parse_serve_args(words) {
        Some(serving) => {
            let means = Means {
                rt,
                alloc,
                clock,
                gate,
            };
            run_serve(&means, &serving, output, disk, port)
        }
        None => desk_alone(alloc, words, input, output, disk, clock),
    }
}
