//! The arguments of a command line.
ghost use Rattle.std.specs.Prelude.{◌≡◌, ◌≢◌, [], IfErr, IfOk, IsErr, IsOkAnd};
ghost use Rattle.std.specs.IoError.{error_kind};
ghost use Rattle.std.specs.Vec.Iter.{into_iter_items};

use hazard_types::Oom;
use std::alloc::Global;
use std::env::Args;
use std::io::{self, ErrorKind};

/// Returns the arguments of the command line that `read` holds, the program's name first. They are
/// an empty list if `read` is an error other than out of memory.
///
/// # Errors
///
/// Out of memory, for the reading or here.
pub fn words_of(alloc: Global, read: io::Result<Args>) -> Result<Vec<String>, Oom>
    ensures read { IfOk read (λ args.
        IfOk result (λ words. words.items ≡ into_iter_items args)) }
    ensures unreadable { IfErr read (λ e. error_kind e ≢ ErrorKind.OutOfMemory
        → IsOkAnd result (λ words. words.items ≡ [])) }
    ensures out_of_memory { IfErr read (λ e. error_kind e ≡ ErrorKind.OutOfMemory
        → IsErr result) }
{
    let mut words = Vec::new(alloc);
    match read {
        Ok(args) => {
            for word in args {
                words.push(word)?;
            }
            Ok(words)
        }
        Err(error) if error.kind() == ErrorKind::OutOfMemory => Err(Oom),
        Err(_) => Ok(words),
    }
}
