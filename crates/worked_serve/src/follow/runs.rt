//! Runs of a follower over links in memory.
ghost use Rattle.std.specs.Prelude.{◌≡◌, [], All, IfOk};
ghost use Rattle.desk_links.specs.LinkMemory.{IsUntouched};

use crate::follow::given::Given;
use crate::memory::{link_of, output_of};
use byte_streams::MemSink;
use desk_links::{MemDialer, MemLink};
use follow_links::follow_run;
use hazard_types::{List, Oom, Text};
use std::alloc::Global;

/// The largest number of bytes that come on the first link, and the largest number that a read of a
/// link returns.
#[derive(Clone, Copy, Debug)]
pub struct Cut {
    pub first: usize,
    pub piece: usize,
}

/// All bytes come, in pieces of any size.
pub const WHOLE: Cut = Cut {
    first: usize::MAX,
    piece: usize::MAX,
};

/// How a run ended.
#[derive(Drop)]
pub struct Run {
    /// The exit status.
    pub status: u8,
    /// What the program wrote.
    pub told: Text,
    /// What was written on each link that it returned.
    pub asked: List<Text>,
}

/// Returns links in memory, in order, with the bytes and the calls that fail of the links that
/// `given` sets. Only the first `cut.first` bytes of the first link come, and a read returns at
/// most `cut.piece` bytes, or 1 if that is 0.
fn links_of(alloc: Global, given: &Given, cut: Cut) -> Result<List<MemLink>, Oom>
    ensures { IfOk result (All IsUntouched) }
{
    let piece = cut.piece.max(1);
    let mut most = cut.first;
    let mut links = List::new(alloc);
    for shape in given.links.as_slice() {
        let bytes = shape.bytes.as_slice();
        let count = bytes.len().min(most);
        links.push(link_of(alloc, &bytes[..count], piece, &shape.failing)?)?;
        most = usize::MAX;
    }
    Ok(links)
}

/// Returns a dialer in memory that gives, in order, the links that `given` sets, and on which the
/// given dials fail. Only the first `cut.first` bytes of the first link come, and a read returns at
/// most `cut.piece` bytes, or 1 if that is 0.
fn dialer_of(alloc: Global, given: &Given, cut: Cut) -> Result<MemDialer, Oom>
    ensures { IfOk result (λ dialer. (dialer.given ≡ 0) × (dialer.back ≡ [])) }
{
    let links = links_of(alloc, given, cut)?;
    MemDialer::new(alloc, links, &given.dials)
}

/// Runs the follower with the arguments `words` over a dialer that has given no link yet, and
/// returns the exit status. What the follower writes is in `output`.
fn follow(alloc: Global, words: &List<Text>, dialer: &mut MemDialer, output: &mut MemSink) -> u8
    requires { (dialer.old.given ≡ 0) × (dialer.old.back ≡ []) }
{
    follow_run(alloc, words, dialer, output)
}

/// Returns what was written on each link that the dialer took back, in the order in which it took
/// them back.
fn written_on_links(alloc: Global, dialer: &MemDialer) -> Result<List<Text>, Oom> {
    let mut asked = List::new(alloc);
    for link in dialer.links() {
        asked.push(link.written().clone()?)?;
    }
    Ok(asked)
}

/// Runs the follower with the arguments `words` over the links that `given` sets, and returns its
/// exit status, what it wrote, and what was written on each link that it gave back, in that order.
/// Only the first `cut.first` bytes of the first link come, and a read returns at most `cut.piece`
/// bytes, or 1 if that is 0.
///
/// # Errors
///
/// Out of memory.
pub fn run_follow(alloc: Global, given: &Given, words: &List<Text>, cut: Cut) -> Result<Run, Oom> {
    let mut output = output_of(alloc, &given.writes)?;
    let mut dialer = dialer_of(alloc, given, cut)?;
    let status = follow(alloc, words, &mut dialer, &mut output);
    let asked = written_on_links(alloc, &dialer)?;
    let told = output.taken().clone()?;
    Ok(Run {
        status,
        told,
        asked,
    })
}
