//! The program `warn_follow`.
ghost use Rattle.std.specs.Prelude.{◌≡◌, ◌<◌, ◌+◌, ◌^◌, IfOk};
ghost use Rattle.event_life.specs.Products.{rows_of};
ghost use Rattle.event_life.specs.Shown.{shown_at};
ghost use Rattle.follow_core.specs.Hearing.{place_of};
ghost use Rattle.std.specs.Process.{exit_status};
ghost use Rattle.program_outside.specs.Starts.{IsUsageShown, Starts};
ghost use Rattle.follow_links.specs.Words.{asked_of};
ghost use Rattle.follow_links.specs.Runs.{Follows, FollowsOver, IsFollowed, IsToldAt, IsUnbegun, text_of, status_of};

use crate::network::Network;
use crate::rounds::{Stop, follow_rounds};
use crate::telling::{bad_line, report, write_run_text};
use crate::words::{Asked, asked_of};
use byte_streams::Sink;
use desk_links::Dialer;
use follow_core::Follower;
use hazard_types::{List, Minute, Oom, Text};
use program_ends::End;
use program_outside::Outside;
use std::alloc::Global;
use std::process::ExitCode;

/// The arguments that the program takes.
const USAGE: &str = "warn_follow OFFICE CLASS STAMP PORT ROUNDS\n";

const USAGE_STATUS: u8 = 2;

const OUT_OF_MEMORY: u8 = 12;

const ROUNDS_SPENT: u8 = 15;

const BAD_ANSWER: u8 = 16;

/// Returns what the program writes if a run ended for the reason `stop`: the follower's place,
/// which is the number of its products, and the rows that these leave live at `minute`, with the
/// line `fault RoundsSpent` after them if the rounds are spent. For a bad answer it is the line
/// `fault BadAnswer PLACE` alone. Errs if `stop` is `OutOfMemory`, or if memory runs out for the
/// text.
fn stop_text(alloc: Global, follower: &Follower, minute: Minute, stop: Stop) -> Result<Text, Oom>
    ensures { IfOk result (λ text. text ≡ text_of stop (place_of follower.now) minute
        (shown_at minute (rows_of follower.now.products))) }
{
    match stop {
        Stop::Spent => report(alloc, follower, minute, b"fault RoundsSpent\n"),
        Stop::Ended => report(alloc, follower, minute, b""),
        Stop::Bad => bad_line(alloc, follower.place()),
        Stop::OutOfMemory => Err(Oom),
    }
}

impl Stop {
    /// Returns the exit status of a run that ended for this reason: 0 if the office has no further
    /// product, 15 for spent rounds, 16 for a bad answer, and 12 if memory ran out.
    fn status(self) -> u8
        ensures { result ≡ status_of self }
    {
        match self {
            Stop::Spent => ROUNDS_SPENT,
            Stop::Ended => 0,
            Stop::Bad => BAD_ANSWER,
            Stop::OutOfMemory => OUT_OF_MEMORY,
        }
    }
}

/// Writes the text with which a run ends for the reason `stop`, and returns the exit status: 8 if a
/// write failed, 12 if memory ran out, else that of `stop`. If the text has rows, they are those
/// that the follower's products leave live at `minute`.
fn write_stop<K: Sink>(
    alloc: Global,
    follower: &Follower,
    minute: Minute,
    stop: Stop,
    output: &mut K,
) -> u8
    ensures { IsToldAt stop (place_of follower.now) minute
        (shown_at minute (rows_of follower.now.products))
        (K.outflow output.old) (K.outflow output.new) result }
{
    match stop_text(alloc, follower, minute, stop) {
        Ok(text) => write_run_text(output, text.as_slice(), stop.status()),
        Err(_) => write_run_text(output, b"fault OutOfMemory\n", OUT_OF_MEMORY),
    }
}

/// Asks the server for the products of an office, in at most `asked.rounds` rounds, writes the rows
/// that they leave live at `asked.minute`, and returns the exit status. It is 0 if there is no
/// further product, 8 if a write failed, 12 if memory ran out, 15 if the rounds are spent, and 16
/// for a bad answer. All links are returned to the dialer.
fn follow<D: Dialer, K: Sink>(alloc: Global, asked: &Asked, dialer: &mut D, output: &mut K) -> u8
    requires none_out { (D.state dialer.old).given ≡ (D.state dialer.old).returned }
    requires few { (D.state dialer.old).returned + asked.now.rounds < 2 ^ 32 }
    ensures back { (D.state dialer.new).given ≡ (D.state dialer.new).returned }
    ensures followed { IsFollowed asked.now (D.state dialer.old) (D.state dialer.new)
        (K.outflow output.old) (K.outflow output.new) result }
{
    let mut follower = Follower::new(alloc, asked.office, asked.class);
    let stop = follow_rounds(alloc, dialer, &mut follower, asked.rounds);
    write_stop(alloc, &follower, asked.minute, stop, output)
}

/// Runs the follower over a dialer, as the arguments `OFFICE CLASS STAMP PORT ROUNDS` in `words`
/// ask, and returns the exit status; for other arguments it writes `fault Usage` and returns 2, or
/// 8 if that write failed. PORT is only parsed, as the dialer has its own port. All links that the
/// dialer gave are returned to it.
///
/// Source: docs/FOLLOWING.md, "How it ends".
pub fn follow_run<D: Dialer, K: Sink>(
    alloc: Global,
    words: &List<Text>,
    dialer: &mut D,
    output: &mut K,
) -> u8
    requires none_out { (D.state dialer.old).given ≡ (D.state dialer.old).returned }
    requires few { (D.state dialer.old).returned + 100000 < 2 ^ 32 }
    ensures back { (D.state dialer.new).given ≡ (D.state dialer.new).returned }
    ensures follows { Follows words.now (D.state dialer.old) (D.state dialer.new)
        (K.outflow output.old) (K.outflow output.new) result }
{
    let Some(asked) = asked_of(words) else {
        return write_run_text(output, b"fault Usage\n", USAGE_STATUS);
    };
    follow(alloc, &asked, dialer, output)
}

/// Runs the follower over a dialer of the port that the arguments `words` name, and returns the
/// exit status. For arguments that are not `OFFICE CLASS STAMP PORT ROUNDS` it makes no dialer,
/// writes `fault Usage` and returns 2, or 8 if that write failed.
fn follow_words<N: Network, K: Sink>(
    alloc: Global,
    words: &List<Text>,
    network: &mut N,
    output: &mut K,
) -> u8
    ensures { FollowsOver N.dials N.Dialer.state (asked_of words.now) network.old network.new
        (K.outflow output.old) (K.outflow output.new) result }
{
    let Some(asked) = asked_of(words) else {
        return write_run_text(output, b"fault Usage\n", USAGE_STATUS);
    };
    let mut dialer = network.dialer(asked.port);
    follow(alloc, &asked, &mut dialer, output)
}

/// Runs the follower with the arguments after the program's name over a dialer of the port that
/// they name, and returns the exit status. For arguments that are not `OFFICE CLASS STAMP PORT
/// ROUNDS` it makes no dialer, writes `fault Usage` and returns 2, or 8 if that write failed. If
/// memory ran out for the arguments, the status is 12, and nothing is dialed or written.
fn run_words<S, K: Sink, M, N: Network>(outside: &mut Outside<S, K, M>, network: &mut N) -> u8
    ensures ran { Starts outside.old.words 1
        ((network.new ≡ network.old)
        × IsUnbegun (K.outflow outside.old.output) (K.outflow outside.new.output) result)
        (λ words. FollowsOver N.dials N.Dialer.state (asked_of words) network.old network.new
        (K.outflow outside.old.output) (K.outflow outside.new.output) result) }
    ensures unread { outside.new.input ≡ outside.old.input }
    ensures silent { outside.new.messages ≡ outside.old.messages }
{
    match outside.given(1) {
        Ok(words) => follow_words(outside.alloc, &words, network, &mut outside.output),
        Err(_) => End::OutOfMemory.status(),
    }
}

/// Runs the whole program: parses the arguments `OFFICE CLASS STAMP PORT ROUNDS`, follows over a
/// dialer of PORT, writes to the output, and returns the exit status. The input is not read. If the
/// status is 2, which is that of other arguments, the usage goes to the messages.
///
/// Source: docs/FOLLOWING.md, "How it ends".
pub fn run_program<S, K: Sink, M: Sink, N: Network>(
    outside: &mut Outside<S, K, M>,
    network: &mut N,
) -> ExitCode
    ensures ran { Starts outside.old.words 1
        ((network.new ≡ network.old)
        × IsUnbegun (K.outflow outside.old.output) (K.outflow outside.new.output)
        (exit_status result))
        (λ words. FollowsOver N.dials N.Dialer.state (asked_of words) network.old network.new
        (K.outflow outside.old.output) (K.outflow outside.new.output) (exit_status result)) }
    ensures unread { outside.new.input ≡ outside.old.input }
    ensures usage { IsUsageShown USAGE.now (exit_status result) (M.outflow outside.old.messages)
        (M.outflow outside.new.messages) }
{
    let status = run_words(outside, network);
    outside.show_usage(status, USAGE);
    ExitCode::from(status)
}
