//! When the bytes of an unfinished call are judged again, so that a head is not parsed for each of
//! its bytes (docs/DECISIONS.md, "HTTP").
ghost use Rattle.std.specs.Prelude.{◌≡◌, ◌≤◌, ◌<◌, ◌+◌, [], drop, length, false, true};
ghost use Rattle.warn_http.specs.Calls.{IsUnfinished};
ghost use Rattle.warn_http.specs.Heads.{has_line_feed};
ghost use Rattle.call_inbox.specs.Watching.{Waits};

use crate::inbox::{MOST_CALL, MOST_HEAD};
use warn_http::{heads_end_with_a_line_feed, least_missing_bytes};

/// When the bytes are to be judged again.
#[derive(Clone, Copy, Debug)]
pub struct Watch {
    /// The number of bytes at the last judgement or the last look for a line end.
    pub seen: usize,
    /// The number of bytes from which on they are to be judged.
    pub from: usize,
    /// Whether they are to be judged at the next line end, too.
    pub by_line: bool,
    ghost few: { from ≤ 73728 },
}

impl Watch {
    /// Returns the watch, which says when the bytes of a call are to be judged, for a call of which
    /// no byte has come: it is due at the first byte.
    pub fn new() -> Self
        ensures seen { result.seen ≡ 0 }
        ensures waits { Waits result.from result.by_line [] }
    {
        heads_end_with_a_line_feed();
        Watch {
            seen: 0,
            from: 1,
            by_line: true,
        }
    }

    /// Returns a watch over `seen` bytes that is due once `missing` more are there, or 73,728 bytes
    /// in all.
    fn for_body(seen: usize, missing: usize) -> Self
        ensures seen { result.seen ≡ seen }
        ensures by_line { result.by_line ≡ false }
        ensures from { result.from ≤ seen + missing }
    {
        Watch {
            seen,
            from: seen.saturating_add(missing).min(MOST_CALL),
            by_line: false,
        }
    }

    /// Returns a watch over `seen` bytes that is due at the next line end, or once there are twice
    /// as many bytes or 8,192.
    fn for_line(seen: usize) -> Self
        ensures seen { result.seen ≡ seen }
        ensures by_line { result.by_line ≡ true }
    {
        Watch {
            seen,
            from: seen.saturating_mul(2).min(MOST_HEAD),
            by_line: true,
        }
    }

    /// Returns the watch after the bytes of an unfinished call were judged. It is due once the body
    /// may be complete, or, while the head is not whole, at the next line end or once there are
    /// twice as many bytes or 8,192.
    pub fn after_check(bytes: &[u8]) -> Self
        requires { IsUnfinished bytes.now }
        ensures seen { result.seen ≡ length bytes.now }
        ensures waits { Waits result.from result.by_line bytes.now }
    {
        match least_missing_bytes(bytes) {
            Some(missing) => Watch::for_body(bytes.len(), missing),
            None => Watch::for_line(bytes.len()),
        }
    }

    /// Whether the bytes of the call are to be judged now: there are at least `from` of them, or
    /// `by_line` is set and an LF is among those after the first `seen`. `bytes` must start with
    /// the `seen` bytes that the watch has looked at before.
    pub fn is_due(&self, bytes: &[u8]) -> bool
        requires { self.now.seen ≤ length bytes.now }
        ensures room { result ≡ false → length bytes.now < 73728 }
        ensures early { result ≡ false → length bytes.now < self.now.from }
        ensures line { result ≡ false → self.now.by_line ≡ true
            → has_line_feed (drop self.now.seen bytes.now) ≡ false }
    {
        if self.from <= bytes.len() {
            return true;
        }
        self.by_line && bytes[self.seen..].contains(&b'\n')
    }
}
