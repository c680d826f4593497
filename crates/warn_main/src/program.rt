//! The whole program, over anything that it may open.
ghost use Rattle.std.specs.Prelude.{◌≡◌};
ghost use Rattle.std.specs.Process.{exit_status};
ghost use Rattle.program_outside.specs.Starts.{IsUsageShown};
ghost use Rattle.warn_main.specs.Programs.{KeepsOver, RunsOver, around};

use crate::access::access_of;
use crate::desk::desk_run;
use crate::place::{Place, place_of};
use byte_streams::{Sink, Source};
use desk_links::{Gate, Port};
use desk_traits::{Clock, Disk, FileDisk, SureDisk};
use hazard_types::{List, Text};
use program_ends::{End, given_words};
use program_outside::{Files, Outside};
use std::alloc::Global;
use std::process::ExitCode;
use std::sync::Wait;
use std::thread::Threads;

/// The size in bytes of the disk in memory, in which the longest journal without a request fits
/// (docs/DECISIONS.md, "Journal and disk").
const ROOM: usize = 1_048_700;

/// The commands of the program, one a line.
const USAGE: &str = "\
warn_main PATH init
warn_main PATH script
warn_main PATH export
warn_main PATH board
warn_main PATH board --at STAMP
warn_main PATH upgrade
warn_main PATH dry OFFICE STAMP
warn_main PATH drill NUMBER COUNT
warn_main PATH serve --port N --workers W --connections M
";

/// What a desk's program uses besides its arguments, its input and its output.
#[derive(Drop)]
pub struct Desk<P, C, G> {
    pub port: P,
    pub clock: C,
    pub gate: G,
}

/// Runs the command of the arguments `words` over a disk, closes the disk and returns the exit
/// status. Nothing is written to the messages of `outside`.
fn run_over<
    R: Threads + Wait + Sync,
    S: Source,
    K: Sink,
    M,
    D: Disk + Send + Drop,
    P: Port,
    C: Clock + Sync,
    G: Gate + Sync,
>(
    rt: &R,
    outside: &mut Outside<S, K, M>,
    words: &List<Text>,
    disk: D,
    desk: &mut Desk<P, C, G>,
) -> u8
    requires { (P.state desk.old.port).returned ≡ 0 }
    ensures ran { KeepsOver D.Disk C.Clock words.now disk
        (around (S.inflow outside.old.input) (K.outflow outside.old.output) desk.old.clock
        (P.state desk.old.port))
        (around (S.inflow outside.new.input) (K.outflow outside.new.output) desk.new.clock
        (P.state desk.new.port)) result }
    ensures silent { outside.new.messages ≡ outside.old.messages }
{
    let ended = desk_run(
        rt,
        outside.alloc,
        words,
        &mut outside.input,
        &mut outside.output,
        disk,
        &mut desk.port,
        &mut desk.clock,
        &desk.gate,
    );
    ended.status
}

/// Runs the command that the arguments after the first ask for, over the journal that the first
/// names: in memory for `-`, else in the file of this path. Returns the exit status. Without any
/// argument the disk has no file, so each of its calls fails; if memory runs out for the arguments
/// or for a disk in memory, the status is 12, and nothing is read or written.
fn run_words<
    R: Threads + Wait + Sync,
    S: Source,
    K: Sink,
    M,
    F: Files,
    P: Port,
    C: Clock + Sync,
    G: Gate + Sync,
>(rt: &R, outside: &mut Outside<S, K, M>, files: &mut F, desk: &mut Desk<P, C, G>) -> u8
    requires { (P.state desk.old.port).returned ≡ 0 }
    ensures ran { RunsOver F.opens F.File.Disk ⟦<FileDisk as Disk>⟧ ⟦<SureDisk as Disk>⟧ C.Clock
        outside.old.words files.old files.new
        (around (S.inflow outside.old.input) (K.outflow outside.old.output) desk.old.clock
        (P.state desk.old.port))
        (around (S.inflow outside.new.input) (K.outflow outside.new.output) desk.new.clock
        (P.state desk.new.port)) result }
    ensures silent { outside.new.messages ≡ outside.old.messages }
{
    let alloc = outside.alloc;
    let Ok(command_line) = &outside.words else {
        return End::OutOfMemory.status();
    };
    let Ok(words) = given_words(alloc, command_line, 2) else {
        return End::OutOfMemory.status();
    };
    match place_of(command_line) {
        Place::Unnamed => run_over(rt, outside, &words, FileDisk::new(None), desk),
        Place::Memory => match SureDisk::new(alloc, ROOM) {
            Ok(disk) => run_over(rt, outside, &words, disk, desk),
            Err(_) => End::OutOfMemory.status(),
        },
        Place::File(path) => {
            let disk = files.open(path, access_of(&words));
            run_over(rt, outside, &words, disk, desk)
        }
    }
}

/// Runs the whole program: opens the journal that the first argument names, runs the command of the
/// other arguments, and returns the exit status. If they are no command, a list of all commands is
/// written as a message.
pub fn run_program<
    R: Threads + Wait + Sync,
    S: Source,
    K: Sink,
    M: Sink,
    F: Files,
    P: Port,
    C: Clock + Sync,
    G: Gate + Sync,
>(rt: &R, outside: &mut Outside<S, K, M>, files: &mut F, desk: &mut Desk<P, C, G>) -> ExitCode
    requires { (P.state desk.old.port).returned ≡ 0 }
    ensures ran { RunsOver F.opens F.File.Disk ⟦<FileDisk as Disk>⟧ ⟦<SureDisk as Disk>⟧ C.Clock
        outside.old.words files.old files.new
        (around (S.inflow outside.old.input) (K.outflow outside.old.output) desk.old.clock
        (P.state desk.old.port))
        (around (S.inflow outside.new.input) (K.outflow outside.new.output) desk.new.clock
        (P.state desk.new.port)) (exit_status result) }
    ensures usage { IsUsageShown USAGE.now (exit_status result) (M.outflow outside.old.messages)
        (M.outflow outside.new.messages) }
{
    let status = run_words(rt, outside, files, desk);
    outside.show_usage(status, USAGE);
    ExitCode::from(status)
}
