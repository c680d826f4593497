//! What a program is started with.
ghost use Rattle.std.specs.Prelude.{◌≡◌, IfOk};
ghost use Rattle.program_outside.specs.Starts.{words_given, IsUsageShown};

use byte_streams::{Sink, write_whole};
use hazard_types::{List, Oom, Text};
use program_ends::{End, given_words};
use std::alloc::Global;

/// What a program is started with. `words` are the arguments, the program's name first, or `Oom` if
/// memory ran out for them; `messages` is the sink for messages to people.
#[derive(Drop)]
pub struct Outside<S, K, M> {
    pub alloc: Global,
    pub words: Result<Vec<String>, Oom>,
    pub input: S,
    pub output: K,
    pub messages: M,
}

impl<S, K, M> Outside<S, K, M> {
    /// Returns the arguments after the first `skipped`, as bytes; none if there are no more than
    /// these. The program's name counts as the first argument.
    ///
    /// # Errors
    ///
    /// Out of memory, when the command line was read or here.
    pub fn given(&self, skipped: usize) -> Result<List<Text>, Oom>
        ensures { IfOk result (λ given. words_given self.now.words skipped given) }
    {
        match &self.words {
            Ok(words) => given_words(self.alloc, words, skipped),
            Err(_) => Err(Oom),
        }
    }
}

impl<S, K, M: Sink> Outside<S, K, M> {
    /// Writes the usage line `usage` to `messages` if `status` is the exit status of a usage error,
    /// 2; otherwise writes nothing. A failed write is ignored.
    pub fn show_usage(&mut self, status: u8, usage: &str)
        ensures shown { IsUsageShown usage.now status (M.outflow self.old.messages)
            (M.outflow self.new.messages) }
        ensures input { self.new.input ≡ self.old.input }
        ensures output { self.new.output ≡ self.old.output }
    {
        if status == End::Usage.status() {
            let _ = write_whole(&mut self.messages, usage.as_bytes());
        }
    }
}
