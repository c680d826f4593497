//! The arguments of a command line.
ghost use Rattle.std.specs.Prelude.{◌≡◌, IfOk};
ghost use Rattle.program_ends.specs.Words.{words_after};

use hazard_types::{List, Oom, Text};
use std::alloc::Global;

/// Returns the arguments in `words` after the first `skipped`, in order, as bytes. The list is
/// empty if there are no more than `skipped`.
///
/// # Errors
///
/// Out of memory.
pub fn given_words(alloc: Global, words: &[String], skipped: usize) -> Result<List<Text>, Oom>
    ensures { IfOk result (λ given. given ≡ words_after skipped words.now) }
{
    let mut given = List::new(alloc);
    for word in &words[skipped.min(words.len())..] {
        given.push(List::from_slice(alloc, word.as_bytes())?)?;
    }
    Ok(given)
}
