//! The link of the system, over TCP, with a limit for each wait. It exposes nothing of the bytes,
//! and is trusted.
ghost use Rattle.std.specs.Prelude.{◌≡◌, ◌≤◌, ◌<◌, length, IfSome};
ghost use Rattle.desk_links.specs.LinkLaws.{untold_input, untold_output};

use crate::link::Link;
use byte_streams::{Sink, Source};
use desk_traits::Failed;
use std::io::{ErrorKind, Read, Write};
use std::net::{Shutdown, TcpStream};
use std::time::{Clock, Duration};

// The seconds that a served link may be silent between two calls, and the longest wait of one of
// its reads.
const IDLE: u64 = 5;

// The seconds from the first byte of a call to its last, and those of an answer. Each gets one more
// for every `BYTES_A_SECOND` bytes, up to `MOST` in all.
const CALL: u64 = 10;

const ANSWER: u64 = 5;

const BYTES_A_SECOND: u64 = 1_024;

const MOST: u64 = 30;

// The seconds that one write of a served link may wait, and those within which an answer counts as
// taken quickly.
const WRITE: u64 = 3;

const QUICK: u64 = 1;

// The longest wait in seconds of one read or write of a dialled link.
const PATIENCE: u64 = 30;

// The number of tries of a read or write that was interrupted or timed out early.
const TRIES: u32 = 64;

// The limits of what is read after the last answer of a link, so that a client that still sends
// receives the answer: seconds in all, seconds of one wait, and pieces.
const LINGER: u64 = 2;

const LINGER_WAIT: u64 = 1;

const LINGER_PIECES: u32 = 4_096;

// The size of such a piece in bytes.
const PIECE: usize = 4_096;

// The side of a link.
#[derive(Clone, Copy, Debug, PartialEq, Eq)]
pub(crate) enum Side {
    // It reads calls and writes answers.
    Serves,
    // It was dialled: it writes calls, and waits for answers that may take long.
    Asks,
}

// The progress of a call that is read or of an answer that is written: when it began, and its bytes
// so far.
#[derive(Clone, Copy, Debug)]
struct Pace {
    first: Duration,
    count: u64,
}

// A stream with its limits, and what the order of its reads and writes says of calls and answers.
#[derive(Drop)]
struct Wire<C> {
    stream: TcpStream,
    clock: C,
    side: Side,
    // The call that is being read.
    call: Option<Pace>,
    // The answer that is being written, together with those before it that were not taken quickly.
    answer: Option<Pace>,
    // Whether the last read or write wrote the end of an answer.
    answered: bool,
    // The timeouts of reads and of writes that the system has now.
    read_wait: Duration,
    write_wait: Duration,
}

/// Whether a read that failed with an error of this kind may be tried again: it was interrupted or
/// timed out. `false` means that it failed for good.
fn may_read_again(kind: ErrorKind) -> bool {
    match kind {
        ErrorKind::Interrupted | ErrorKind::WouldBlock | ErrorKind::TimedOut => true,
        _ => false,
    }
}

impl Side {
    /// Returns the longest wait of one read: 5 s for a link that serves calls, 30 s for one that
    /// was dialled.
    fn read_wait(self) -> Duration {
        match self {
            Side::Serves => Duration::from_secs(IDLE),
            Side::Asks => Duration::from_secs(PATIENCE),
        }
    }

    /// Returns the longest wait of one write: 3 s for a link that serves calls, 30 s for one that
    /// was dialled.
    fn write_wait(self) -> Duration {
        match self {
            Side::Serves => Duration::from_secs(WRITE),
            Side::Asks => Duration::from_secs(PATIENCE),
        }
    }

    /// Returns the seconds that the writing of a whole answer may take, or of a whole call on a
    /// link that was dialled, before its bytes add to them: 5 for a link that serves calls, 30 for
    /// one that was dialled.
    fn answer_seconds(self) -> u64 {
        match self {
            Side::Serves => ANSWER,
            Side::Asks => PATIENCE,
        }
    }
}

impl Pace {
    /// Returns the time limit of the call or answer, on the clock of its start: `seconds` after its
    /// start, and one second more for every 1,024 bytes so far, but at most 30 s after its start.
    fn end(&self, seconds: u64) -> Duration {
        let more = self.count / BYTES_A_SECOND;
        let all = Duration::from_secs(seconds.saturating_add(more).min(MOST));
        self.first.saturating_add(all)
    }

    /// Returns the progress with the same start and `count` bytes more.
    fn with(&self, count: usize) -> Self {
        Pace {
            first: self.first,
            count: self.count.saturating_add(count as u64),
        }
    }
}

impl<C: Clock> Wire<C> {
    /// Returns a wire over `stream`, on which nothing was read or written, with the timeouts of
    /// `side` and without delay of small writes. Settings that the system refuses are passed over.
    fn new(clock: C, stream: TcpStream, side: Side) -> Self {
        let read_wait = side.read_wait();
        let write_wait = side.write_wait();
        let _ = stream.set_read_timeout(Some(read_wait));
        let _ = stream.set_write_timeout(Some(write_wait));
        let _ = stream.set_nodelay(true);
        Wire {
            stream,
            clock,
            side,
            call: None,
            answer: None,
            answered: false,
            read_wait,
            write_wait,
        }
    }

    /// Returns the time since some fixed start, or zero if the clock can't be read. In that case
    /// the time does not advance, and only the limits of single waits hold.
    fn now(&self) -> Duration {
        self.clock.monotonic().unwrap_or(Duration::ZERO)
    }

    /// Returns the time at which a read that begins at `now` must end, both times of the link's
    /// clock. If a call is being read, that is 10 s after its first byte and one second more for
    /// every full 1,024 bytes of it so far, but at most 30 s after it. Else it is `now` plus the
    /// longest wait of one read, 5 s for a link that serves calls and 30 s for one that was
    /// dialled.
    fn read_end(&self, now: Duration) -> Duration {
        match &self.call {
            Some(call) => call.end(CALL),
            None => now.saturating_add(self.side.read_wait()),
        }
    }

    /// Returns the time from now until `end`, a time of the link's clock, but at most `most`;
    /// `None` if `end` has come.
    fn wait_until(&self, end: Duration, most: Duration) -> Option<Duration> {
        let left = end.saturating_sub(self.now());
        if left.is_zero() {
            return None;
        }
        Some(left.min(most))
    }

    /// Sets the stream's read timeout to `wait`, unless it has that value. A refusal by the system
    /// is passed over.
    fn set_read_wait(&mut self, wait: Duration) {
        if wait != self.read_wait {
            let _ = self.stream.set_read_timeout(Some(wait));
            self.read_wait = wait;
        }
    }

    /// Sets the stream's write timeout to `wait`, unless it has that value. A refusal by the system
    /// is passed over.
    fn set_write_wait(&mut self, wait: Duration) {
        if wait != self.write_wait {
            let _ = self.stream.set_write_timeout(Some(wait));
            self.write_wait = wait;
        }
    }

    /// Adds `count` bytes that were read to the call that is being read, or begins a call with them
    /// at `now`, a time of the link's clock, if no call is being read. Does nothing for 0 bytes, or
    /// on a link that was dialled, which reads no calls.
    fn note_read(&mut self, count: usize, now: Duration) {
        if count == 0 || self.side == Side::Asks {
            return;
        }
        let before = match &self.call {
            Some(call) => *call,
            None => Pace {
                first: now,
                count: 0,
            },
        };
        self.call = Some(before.with(count));
    }

    /// Reads into the start of `into` and returns how many bytes, or `None` if the read failed,
    /// went past its time limit, or was interrupted or timed out early 64 times. 0 for a non-empty
    /// `into` means the end of the input. Ends the answer that was being written.
    fn receive(&mut self, into: &mut [u8]) -> Option<usize>
        ensures { IfSome result (λ n. n ≤ length into.new) }
    {
        self.answer = None;
        self.answered = false;
        let end = self.read_end(self.now());
        for _ in 0..TRIES {
            let wait = self.wait_until(end, self.side.read_wait())?;
            self.set_read_wait(wait);
            match self.stream.read(into) {
                Ok(count) => {
                    self.note_read(count, self.now());
                    return Some(count);
                }
                Err(error) => {
                    if !may_read_again(error.kind()) {
                        return None;
                    }
                }
            }
        }
        None
    }

    /// Returns the start of the answer that is being written and the number of its bytes so far; if
    /// no answer is being written, now and 0. Ends the call that was being read, so that what is
    /// read next is another call.
    fn answer_pace(&mut self) -> Pace {
        self.call = None;
        self.answered = false;
        match &self.answer {
            Some(pace) => *pace,
            None => Pace {
                first: self.now(),
                count: 0,
            },
        }
    }

    /// Records that `count` bytes of an answer were written, where `pace` is its start and its
    /// bytes before them. `whole` is whether they end the answer. An answer that ended less than 1
    /// s after its start is forgotten, and after any other, what is written next with no read
    /// between counts as more of it.
    fn note_write(&mut self, pace: &Pace, count: usize, whole: bool) {
        let spent = self.now().saturating_sub(pace.first);
        let is_quick = spent < Duration::from_secs(QUICK);
        self.answered = whole;
        self.answer = if whole && is_quick {
            None
        } else {
            Some(pace.with(count))
        };
    }

    /// Writes a prefix of `bytes` and returns its length, at least 1 unless `bytes` is empty, or
    /// `None` if the write failed, went past its time limit or was interrupted 64 times. Ends the
    /// call that was being read.
    fn send(&mut self, bytes: &[u8]) -> Option<usize>
        ensures { IfSome result (λ n. (n ≤ length bytes.now) × (0 < length bytes.now → 0 < n)) }
    {
        let pace = self.answer_pace();
        let end = pace.end(self.side.answer_seconds());
        for _ in 0..TRIES {
            let wait = self.wait_until(end, self.side.write_wait())?;
            self.set_write_wait(wait);
            match self.stream.write(bytes) {
                Ok(count) if 0 < count || bytes.is_empty() => {
                    self.note_write(&pace, count, count == bytes.len());
                    return Some(count);
                }
                Err(error) if error.kind() == ErrorKind::Interrupted => {}
                _ => return None,
            }
        }
        None
    }

    /// Shuts down the output and reads what the other side still sends, since it might lose the
    /// last answer if the link closed with unread bytes. Ends after 2 s in all, 1 s without bytes,
    /// or 4,096 reads. Does nothing unless the last read or write on the link wrote the end of an
    /// answer.
    fn linger(&mut self) {
        if !self.answered || self.stream.shutdown(Shutdown::Write).is_err() {
            return;
        }
        let most = Duration::from_secs(LINGER_WAIT);
        let end = self.now().saturating_add(Duration::from_secs(LINGER));
        let mut piece = [0; PIECE];
        for _ in 0..LINGER_PIECES {
            let Some(wait) = self.wait_until(end, most) else {
                return;
            };
            self.set_read_wait(wait);
            match self.stream.read(&mut piece) {
                Ok(0) => return,
                Ok(_count) => {}
                Err(error) => {
                    if error.kind() != ErrorKind::Interrupted {
                        return;
                    }
                }
            }
        }
    }
}

/// A TCP connection with a count of failed reads and one of failed writes. What is read before
/// something is written is a call, and what is written then is an answer, up to a write that takes
/// all of its bytes; a read or write that goes past a time limit fails. docs/SERVING.md, "How long
/// a link may take", has the limits, and docs/DECISIONS.md, "Links and doors", their reasons.
#[derive(Drop)]
pub struct TcpLink<C> {
    wire: Wire<C>,
    pub(crate) read_faults: u64,
    pub(crate) write_faults: u64,
}

impl<C: Clock> TcpLink<C> {
    /// Returns a link over `stream` none of whose reads and writes has failed. `side` says whether
    /// the link serves calls or was dialled, which sets its time limits; `clock` measures them.
    pub(crate) fn over(clock: C, stream: TcpStream, side: Side) -> Self
        ensures read { result.read_faults ≡ 0 }
        ensures write { result.write_faults ≡ 0 }
    {
        TcpLink {
            wire: Wire::new(clock, stream, side),
            read_faults: 0,
            write_faults: 0,
        }
    }
}

impl<C: Clock + Drop> TcpLink<C> {
    /// Closes the link. If the last thing done on it was to write the end of an answer, it first
    /// waits, at most 2 s, for the other side to take that.
    pub(crate) fn close(self) {
        let mut link = self;
        link.wire.linger();
    }
}

impl<C: Clock> Source for TcpLink<C> {
    ghost inflow = { λ l. untold_input l.read_faults };

    ghost reads = { λ old new. new.write_faults ≡ old.write_faults };

    /// Reads from the connection into the start of `into` and returns how many bytes, 0 for a
    /// non-empty `into` at the end of the input. Fails, which is counted, if the read fails or goes
    /// past a time limit of the link.
    fn read(&mut self, into: &mut [u8]) -> Result<usize, Failed> {
        match self.wire.receive(into) {
            Some(count) => Ok(count),
            None => {
                self.read_faults = self.read_faults.saturating_add(1);
                Err(Failed)
            }
        }
    }
}

impl<C: Clock> Sink for TcpLink<C> {
    ghost use Rattle.desk_links.specs.LinkLaws.{count_same, count_kept};

    ghost outflow = { λ l. untold_output l.write_faults };

    ghost writes = { λ old new. new.read_faults ≡ old.read_faults };

    ghost no_writes = { λ l. count_same l.read_faults };

    ghost more_writes = { λ old mid new first second. count_kept
        old.read_faults mid.read_faults new.read_faults first second };

    /// Writes a prefix of `bytes` to the connection and returns its length, at least 1 unless
    /// `bytes` is empty. Fails, which is counted, if the write fails or goes past a time limit of
    /// the link.
    fn write(&mut self, bytes: &[u8]) -> Result<usize, Failed> {
        match self.wire.send(bytes) {
            Some(count) => Ok(count),
            None => {
                self.write_faults = self.write_faults.saturating_add(1);
                Err(Failed)
            }
        }
    }
}

impl<C: Clock> Link for TcpLink<C> {
    ghost use Rattle.std.specs.Prelude.{refl};
    ghost use Rattle.desk_links.specs.LinkLaws.{keeps_input, keeps_output, untold};

    ghost state = { λ l. untold l.read_faults l.write_faults };

    ghost shows_input = { λ _. refl };

    ghost shows_output = { λ _. refl };

    ghost reads_alone = { λ old new kept.
        keeps_output old.read_faults new.read_faults old.write_faults new.write_faults kept };

    ghost writes_alone = { λ old new kept.
        keeps_input old.read_faults new.read_faults old.write_faults new.write_faults kept };

    ghost told_whole = { λ _. tt };
}
