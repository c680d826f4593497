//! The words of the command.
ghost use Rattle.std.specs.Prelude.{IfOk, IfSome};
ghost use Rattle.serve_command.specs.Words.{IsServing};

use hazard_types::Oom;
use serve_command::{Serving, parse_serve_args};
use std::alloc::Global;
use worked_lines::words_of;

/// Returns the port, workers and connections that a line, a command `serve` with its options, asks
/// for, or `None` if the words are no such command.
///
/// # Errors
///
/// Out of memory.
pub fn serving_in(alloc: Global, line: &str) -> Result<Option<Serving>, Oom>
    ensures { IfOk result (λ serving. IfSome serving IsServing) }
{
    let words = words_of(alloc, line)?;
    Ok(parse_serve_args(&words))
}

/// Returns the line `port PORT, workers COUNT, connections COUNT` of what `line`, a command
/// `serve`, asks for. Returns the line `Usage` if its words are no such command.
///
/// # Errors
///
/// Out of memory.
pub fn words_answer(alloc: Global, line: &str) -> Result<String, Oom> {
    match serving_in(alloc, line)? {
        Some(serving) => {
            let port = serving.port;
            let workers = serving.workers;
            let connections = serving.connections;
            Ok(format!(in alloc; "port {port}, workers {workers}, connections {connections}\n")?)
        }
        None => Ok(String::from_str(alloc, "Usage\n")?),
    }
}
