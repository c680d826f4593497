//! A program that reads one input, writes one output and ends with a status.
ghost use Rattle.std.specs.Prelude.{◌≡◌, ◌≤◌, ℕ, List as Seq};
ghost use Rattle.std.specs.Process.{exit_status};
ghost use Rattle.byte_streams.specs.Flows.{Streams, streams};
ghost use Rattle.program_ends.specs.Lines.{most_bytes};
ghost use Rattle.program_outside.specs.Starts.{IsUsageShown, Runs};

use crate::outside::Outside;
use byte_streams::{Sink, Source};
use hazard_types::{List, Text};
use program_ends::{End, LIMIT};
use std::alloc::Global;
use std::process::ExitCode;

/// What a program does with an input and an output, as the words of its command line ask for it.
pub trait Program<S: Source, K: Sink> {
    /// `does words limit before after status`: a run that these words ask for, with an input of at
    /// most `limit` bytes, may leave the streams so and end with this status.
    ghost does: { Seq (Seq ℕ) → ℕ → Streams → Streams → ℕ → Type 0 };

    /// The bytes of the usage line.
    ghost usage: { Seq ℕ };

    /// Returns the usage line of the program, with its LF.
    fn usage() -> &'static str
        ensures { result.now ≡ usage };

    /// Does what `words`, the arguments after the program's name, ask for with an input of at most
    /// `limit` bytes, writes to `output` and returns the exit status. `limit` must be at most
    /// `program_ends::LIMIT`.
    fn run(alloc: Global, words: &List<Text>, limit: usize, input: &mut S, output: &mut K) -> u8
        requires { limit ≤ most_bytes }
        ensures { does words.now limit
            (streams (S.inflow input.old) (K.outflow output.old))
            (streams (S.inflow input.new) (K.outflow output.new)) result };
}

impl<S: Source, K: Sink, M: Sink> Outside<S, K, M> {
    /// Runs `P` with the arguments after the program's name and an input of at most
    /// `program_ends::LIMIT` bytes, and returns its exit status. If memory runs out for the
    /// arguments, the status is 12, and nothing is read or written.
    fn run_words<P: Program<S, K>>(&mut self) -> u8
        ensures ran { Runs self.old.words (λ words. P.does words most_bytes)
            (streams (S.inflow self.old.input) (K.outflow self.old.output))
            (streams (S.inflow self.new.input) (K.outflow self.new.output)) result }
        ensures silent { self.new.messages ≡ self.old.messages }
    {
        match self.given(1) {
            Ok(words) => P::run(self.alloc, &words, LIMIT, &mut self.input, &mut self.output),
            Err(_) => End::OutOfMemory.status(),
        }
    }

    /// Runs `P` with the arguments after the program's name and an input of at most
    /// `program_ends::LIMIT` bytes, and returns its exit status, or 12 if memory runs out for the
    /// arguments. If that is 2, the status of a usage error, the usage line is written to
    /// `messages`.
    pub fn run<P: Program<S, K>>(&mut self) -> ExitCode
        ensures ran { Runs self.old.words (λ words. P.does words most_bytes)
            (streams (S.inflow self.old.input) (K.outflow self.old.output))
            (streams (S.inflow self.new.input) (K.outflow self.new.output))
            (exit_status result) }
        ensures usage { IsUsageShown P.usage (exit_status result) (M.outflow self.old.messages)
            (M.outflow self.new.messages) }
    {
        let status = self.run_words::<P>();
        self.show_usage(status, P::usage());
        ExitCode::from(status)
    }
}
