//! The serving of one link over the office of a journal.
ghost use Rattle.std.specs.Prelude.{◌≤◌};

use crate::memory::{link_of, serve_link};
use crate::offices::Left;
use crate::serve::answers::{add_bytes, count_answers, end_name};
use crate::serve::given::Given;
use desk_links::MemLink;
use desk_traits::MemDisk;
use hazard_types::{Oom, Text};
use std::alloc::Global;
use std::sync::Wait;
use warn_serve::LinkEnd;

/// What the serving of a link left: how it ended, what was written on it, the file of the disk, and
/// the number of requests of the office.
#[derive(Drop)]
pub struct LinkRun {
    pub end: LinkEnd,
    pub written: Text,
    pub file: Text,
    pub requests: u64,
}

/// Returns how the serving of a link ended, what was written on the link, the file of the disk and
/// the number of requests. `link` is the link after it was served, and `left` is what that left of
/// the office.
fn link_run(link: &MemLink, left: &Left<MemDisk>) -> Result<LinkRun, Oom> {
    let written = link.written().clone()?;
    let file = left.disk.file().clone()?;
    Ok(LinkRun {
        end: left.end,
        written,
        file,
        requests: left.requests,
    })
}

/// Serves one link on which `bytes` come, at most `piece` of them a read, over the disk and the
/// clock that `given` sets. Returns how the link ended, what was written on it, and the file of the
/// disk and the number of requests afterwards. `None` if no office can be opened: the file is no
/// office's journal, or while it is opened a call of the disk fails or memory runs out.
///
/// # Errors
///
/// Out of memory.
pub fn run_link<R: Wait>(
    rt: &R,
    alloc: Global,
    given: &Given,
    bytes: &[u8],
    piece: usize,
) -> Result<Option<LinkRun>, Oom>
    requires { 1 ≤ piece }
{
    let clock = given.clock(alloc)?;
    let disk = given.disk(alloc)?;
    let mut link = link_of(alloc, bytes, piece, &given.broken)?;
    match serve_link(rt, alloc, disk, &mut link, &clock)? {
        Some(left) => Ok(Some(link_run(&link, &left)?)),
        None => Ok(None),
    }
}

/// Returns what was written on a link, and a line with how it ended and the number of requests of
/// the office.
///
/// # Errors
///
/// Out of memory.
pub fn link_answer(alloc: Global, run: &LinkRun) -> Result<String, Oom> {
    let mut answer = String::new(alloc);
    add_bytes(&mut answer, run.written.as_slice())?;
    let end = end_name(run.end);
    let requests = run.requests;
    answer.push_str(format!(in alloc; "{end}, requests {requests}\n")?.as_str())?;
    Ok(answer)
}

/// Returns a line with the numbers of answers and bytes written on a link, how it ended, and the
/// number of requests of the office.
///
/// # Errors
///
/// Out of memory.
pub fn tally_answer(alloc: Global, run: &LinkRun) -> Result<String, Oom> {
    let answers = count_answers(&run.written);
    let bytes = run.written.len();
    let end = end_name(run.end);
    let requests = run.requests;
    Ok(format!(in alloc; "answers {answers}, bytes {bytes}, {end}, requests {requests}\n")?)
}
