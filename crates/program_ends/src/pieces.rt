//! Reading of an input piece by piece, up to a limit.
ghost use Rattle.std.specs.Prelude.{◌≡◌, ◌<◌, ◌+◌, ◌^◌, length};
ghost use Rattle.program_ends.specs.Pieces.{ReadsNext, extent};

use crate::reading::{Stop, read_some};
use byte_streams::Source;
use desk_traits::Failed;
use std::marker::Model;

/// The number of bytes read from an input, and the most that it may have.
#[derive(Debug, Drop)]
pub struct Pieces {
    limit: usize,
    total: usize,
}

impl Model for Pieces {
    ghost use Rattle.std.specs.Prelude.{◌≤◌, ◌<◌, ◌+◌, ◌^◌};
    ghost use Rattle.program_ends.specs.Pieces.{Extent};

    ghost Value = { Extent };

    ghost invariant = { λ p. (p.total ≤ p.limit + 1) × (p.limit + 1 < 2 ^ 64) };

    ghost view = { λ p. record { limit = p.limit; total = p.total } };
}

impl Pieces {
    /// Returns a reader that has read no piece yet of an input that may have at most `limit` bytes.
    pub fn up_to(limit: usize) -> Self
        requires { limit + 1 < 2 ^ 64 }
        ensures { result ≡ extent limit 0 }
    {
        Pieces { limit, total: 0 }
    }

    /// Reads the next piece of `input` into the start of `buffer`, which must not be empty, and
    /// returns how many of the piece's bytes are within the limit, or `None` at the input's end. At
    /// most one byte over the limit is read, to find out whether the input is too long; it is not
    /// counted in the result, and the next call errs.
    ///
    /// # Errors
    ///
    /// - `Read` if the read failed.
    /// - `TooLong` if the piece before this one went over the limit.
    pub fn next<S: Source>(
        &mut self,
        input: &mut S,
        buffer: &mut [u8],
    ) -> Result<Option<usize>, Stop>
        requires { 0 < length buffer.old }
        ensures { ReadsNext self.old self.new (S.inflow input.old) (S.inflow input.new)
            buffer.new result }
    {
        if self.limit < self.total {
            return Err(Stop::TooLong);
        }
        let within = self.limit - self.total;
        let room = buffer.len().min(within + 1);
        let count = match read_some(input, buffer, room) {
            Ok(count) => count,
            Err(Failed) => return Err(Stop::Read),
        };
        if count == 0 {
            return Ok(None);
        }
        self.total += count;
        Ok(Some(count.min(within)))
    }
}
