//! The lines of what is outside: `FORM WORDS : CALLS`, where FORM says what is made, WORDS how, and
//! CALLS what is called.
use crate::outside::disks::{disk_row, sure_disk_row};
use crate::outside::journals::{journal_row, long_row, opened_row};
use crate::outside::links::{link_row, peer_row};
use crate::outside::ports::{dialer_row, port_row};
use crate::outside::real::{broken_row, file_row, network_row, std_row, system_clock_row};
use crate::outside::streams::{clock_row, sink_row, source_row, sure_sink_row, sure_source_row};
use crate::outside::told::told_by;
use crate::outside::words::unread;
use hazard_types::Oom;
use std::alloc::Global;
use worked_lines::Work;

/// The script, which keeps nothing from line to line.
#[derive(Drop)]
pub struct Script<'a> {
    pub rt: &'a HostRuntime,
}

/// Returns what is printed for a line whose form is `source`, `sure_source`, `sink`, `sure_sink`,
/// `disk`, `sure_disk`, `link`, `peer`, `journal`, `opened`, `long` or `std`, without a line end;
/// `unread` for another form, or if a word of `words` cannot be read. `words` give the bytes with
/// which the thing is made, and after them its faults, as `failing=2,3`. `calls` are the calls that
/// are made of it.
fn told_row(alloc: Global, form: &str, words: &str, calls: &str) -> Result<String, Oom> {
    let Some(told) = told_by(alloc, words)? else {
        return unread(alloc);
    };
    match form {
        "source" => source_row(alloc, &told, calls),
        "sure_source" => sure_source_row(alloc, &told, calls),
        "sink" => sink_row(alloc, &told, calls),
        "sure_sink" => sure_sink_row(alloc, calls),
        "disk" => disk_row(alloc, &told, calls),
        "sure_disk" => sure_disk_row(alloc, &told, calls),
        "link" => link_row(alloc, &told, calls),
        "peer" => peer_row(alloc, &told, calls),
        "journal" => journal_row(alloc, &told, calls),
        "opened" => opened_row(alloc, &told),
        "long" => long_row(alloc, &told),
        "std" => std_row(alloc, &told, calls),
        _ => unread(alloc),
    }
}

/// Returns what is printed for a line `FORM WORDS : CALLS`, without a line end, or `unread` if it
/// cannot be read. FORM names what is made, as `clock`, `port`, `dialer`, `broken`, `file`,
/// `system_clock`, `network` or `disk`; WORDS say with what, and CALLS are the calls of it. Both
/// are empty if the line does not have them.
fn row(rt: &HostRuntime, line: &str) -> Result<String, Oom> {
    let alloc = rt.alloc();
    let (made, calls) = line.split_once(" :").unwrap_or((line, ""));
    let (form, words) = made.split_once(' ').unwrap_or((made, ""));
    match form {
        "clock" => clock_row(alloc, words, calls),
        "port" => port_row(alloc, words, calls),
        "dialer" => dialer_row(alloc, words, calls),
        "broken" => broken_row(alloc),
        "file" => file_row(rt),
        "system_clock" => system_clock_row(rt),
        "network" => network_row(rt),
        _ => told_row(alloc, form, words, calls),
    }
}

impl<'a> Work for Script<'a> {
    /// Returns what is printed for a line, with its line end; an empty text for a remark, which
    /// begins with `#`, and for an empty line.
    fn work(&mut self, alloc: Global, line: &str) -> Result<String, Oom> {
        if line.is_empty() || line.starts_with('#') {
            return Ok(String::new(alloc));
        }
        let mut answer = row(self.rt, line)?;
        answer.push('\n')?;
        Ok(answer)
    }
}
