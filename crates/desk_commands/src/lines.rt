//! Refusals as lines.
ghost use Rattle.std.specs.Prelude.{◌≡◌, IfOk};
ghost use Rattle.desk_commands.specs.Lines.{refusal_line};

use hazard_types::{Oom, Text};
use office_types::Refusal;
use request_json::refusal_text;
use std::alloc::Global;

/// Returns the text of a refusal, JSON, with an LF.
///
/// # Errors
///
/// Out of memory.
pub fn refusal_line(alloc: Global, refusal: &Refusal) -> Result<Text, Oom>
    ensures { IfOk result (λ line. line ≡ refusal_line refusal.now) }
{
    let mut line = refusal_text(alloc, refusal)?;
    line.extend(b"\n")?;
    Ok(line)
}
