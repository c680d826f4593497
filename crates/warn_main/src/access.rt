//! Which runs write to the journal's file.
ghost use Rattle.std.specs.Prelude.{◌≡◌};
ghost use Rattle.warn_main.specs.Access.{access_of};

use desk_program::{Command, command_of};
use hazard_types::{List, Text};
use program_outside::Access;
use serve_command::parse_serve_args;

/// Returns `Writes` if a run with these arguments writes to the journal's file, as `init`,
/// `script`, `upgrade` and `serve` do, and `Reads` for any others.
pub fn access_of(words: &List<Text>) -> Access
    ensures { result ≡ access_of words.now }
{
    if parse_serve_args(words).is_some() {
        return Access::Writes;
    }
    match command_of(words) {
        Some(Command::Init | Command::Script | Command::Upgrade) => Access::Writes,
        _ => Access::Reads,
    }
}
