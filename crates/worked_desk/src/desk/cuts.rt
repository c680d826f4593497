//! Runs over each beginning of a file or of settings.
use crate::desk::answers::cut_answer;
use crate::desk::runs::{Given, NO_FAULTS, Run, run_command};
use crate::desk::steps::Cutting;
use hazard_types::{List, Oom, Text};
use std::alloc::Global;

/// Runs `export` over a file of these bytes, or `init` with them as settings and no file, as
/// `cutting` says, and returns the exit status, what was written, and the disk.
fn run_on(alloc: Global, cutting: Cutting, bytes: &[u8]) -> Result<Run, Oom> {
    let none = Given {
        input: Text::new(alloc),
        readings: List::new(alloc),
    };
    match cutting {
        Cutting::File => run_command(alloc, "export", &none, bytes, &NO_FAULTS),
        Cutting::Settings => {
            let given = Given {
                input: List::from_slice(alloc, bytes)?,
                readings: none.readings,
            };
            run_command(alloc, "init", &given, b"", &NO_FAULTS)
        }
    }
}

/// Returns a line for each number of first bytes of `bytes`, from 0 to all, with which a run writes
/// or ends otherwise than with one byte less; the line of 0 bytes is always there. A run is
/// `export` over a file of these bytes, or `init` with them as settings and no file, as `cutting`
/// says.
///
/// # Errors
///
/// Out of memory.
pub fn cuts(alloc: Global, cutting: Cutting, bytes: &[u8]) -> Result<String, Oom> {
    let mut answer = String::new(alloc);
    let mut last: Option<Run> = None;
    for count in 0..=bytes.len() {
        let run = run_on(alloc, cutting, &bytes[..count])?;
        let same = match &last {
            Some(last) => last.status == run.status && last.text.as_slice() == run.text.as_slice(),
            None => false,
        };
        if !same {
            let line = cut_answer(alloc, count, &run.text, run.status)?;
            answer.push_str(line.as_str())?;
        }
        last = Some(run);
    }
    Ok(answer)
}
