//! The line that is being read, of which no more is stored than a line may have.
ghost use Rattle.std.specs.Prelude.{◌≡◌, ◌++◌, ◌∷◌, [], ℕ, List, option_map, IfOk};
ghost use Rattle.program_ends.specs.Lines.{without_return, fit, pending_of};

use hazard_types::Oom;
use std::alloc::Global;
use std::marker::Model;

/// The most bytes of a line.
const MOST_BYTES: usize = 65_536;

/// The line so far: its first 65,537 bytes, the last of which may be a CR that is dropped, and
/// whether it is longer.
#[derive(Debug, Drop)]
pub struct Line {
    kept: Vec<u8>,
    is_longer: bool,
}

impl Model for Line {
    ghost use Rattle.std.specs.Prelude.{◌<◌};
    ghost use Rattle.std.specs.Vec.{vec_capacity};
    ghost use Rattle.program_ends.specs.Lines.{Pending};

    ghost Value = { Pending };

    ghost invariant = { λ l. 65536 < vec_capacity l.kept };

    ghost view = { λ l. record { kept = l.kept.items; is_longer = l.is_longer } };
}

/// Returns `line` without its last byte if that is a CR, else all of `line`.
fn without_return(line: &[u8]) -> &[u8]
    ensures { result.now ≡ without_return line.now }
{
    if !line.is_empty() && line[line.len() - 1] == b'\r' {
        &line[..line.len() - 1]
    } else {
        line
    }
}

/// Returns `line` itself, or `None` if it has more than 65,536 bytes.
fn line_within_limit(line: &[u8]) -> Option<&[u8]>
    ensures { option_map (λ bytes. bytes.now) result ≡ fit line.now }
{
    if line.len() > MOST_BYTES {
        None
    } else {
        Some(line)
    }
}

impl Line {
    /// Returns an empty line with room for 65,537 bytes.
    ///
    /// # Errors
    ///
    /// Out of memory.
    #[tactic(auto, unfolding(crate::specs::Lines::pending_of))]
    pub fn new(alloc: Global) -> Result<Self, Oom>
        ensures { IfOk result (λ line. line ≡ pending_of []) }
    {
        let kept = Vec::with_capacity(alloc, MOST_BYTES + 1)?;
        Ok(Line {
            kept,
            is_longer: false,
        })
    }

    /// Appends a byte to the line. Bytes after the first 65,537 are not stored; then only the fact
    /// that the line is longer is noted. It allocates no memory.
    pub fn push(&mut self, byte: u8)
        ensures { (line : List ℕ) → self.old ≡ pending_of line
            → self.new ≡ pending_of (line ++ byte ∷ []) }
    {
        if self.kept.len() <= MOST_BYTES {
            self.kept.push_reserved(byte);
        } else {
            self.is_longer = true;
        }
    }

    /// Removes all bytes, so that the next line may begin.
    #[tactic(auto, unfolding(crate::specs::Lines::pending_of))]
    pub fn clear(&mut self)
        ensures { self.new ≡ pending_of [] }
    {
        self.kept.clear();
        self.is_longer = false;
    }

    /// Returns the bytes pushed since the last `clear`, as a line that an LF has ended: without one
    /// CR at their end, if there is one. It is `None` if more than 65,536 bytes remain.
    pub fn line_at_end(&self) -> Option<&[u8]>
        ensures { (line : List ℕ) → self.now ≡ pending_of line
            → option_map (λ bytes. bytes.now) result ≡ fit (without_return line) }
    {
        if self.is_longer {
            None
        } else {
            line_within_limit(without_return(&self.kept))
        }
    }

    /// Returns the bytes pushed since the last `clear`, as the last line of an input, which no LF
    /// has ended: a CR at their end is kept. It is `None` if they are more than 65,536.
    pub fn unended(&self) -> Option<&[u8]>
        ensures { (line : List ℕ) → self.now ≡ pending_of line
            → option_map (λ bytes. bytes.now) result ≡ fit line }
    {
        if self.is_longer {
            None
        } else {
            line_within_limit(&self.kept)
        }
    }
}
