//! The other end of a link: an office on a disk in memory.
use crate::memory::{disk_of, journal_of};
use crate::serve::given::Given;
use crate::serve::links::{LinkRun, run_link};
use hazard_types::{List, Oom, Text};
use std::alloc::Global;
use std::sync::Wait;

/// The settings of an office, and the journal and the clock that it is served with.
#[derive(Drop)]
pub struct Office {
    pub settings: Text,
    pub given: Given,
}

impl Office {
    /// Returns an office whose settings are empty and which has no journal yet.
    pub fn new(alloc: Global) -> Self {
        Office {
            settings: List::new(alloc),
            given: Given::new(alloc),
        }
    }

    /// Creates a new office with the settings on an empty disk and sets the journal to the one that
    /// this makes. Returns whether the office was created; if it was not, as for settings that have
    /// a fault, the journal is as before.
    ///
    /// # Errors
    ///
    /// Out of memory.
    pub fn make_journal(&mut self, alloc: Global) -> Result<bool, Oom> {
        let disk = disk_of(alloc, b"")?;
        match journal_of(alloc, disk, self.settings.as_slice())? {
            Some(journal) => {
                self.given.file = journal;
                Ok(true)
            }
            None => Ok(false),
        }
    }

    /// Serves one link on which `bytes` come over a copy of the office, and returns how the link
    /// ended, what was written on it, the journal that this leaves, and the number of requests in
    /// it. `None` if the office has no journal yet, as before `make_journal`. The office that is
    /// kept here is unchanged.
    ///
    /// # Errors
    ///
    /// Out of memory.
    pub fn serve<R: Wait>(
        &self,
        rt: &R,
        alloc: Global,
        bytes: &[u8],
    ) -> Result<Option<LinkRun>, Oom> {
        run_link(rt, alloc, &self.given, bytes, usize::MAX)
    }
}

/// Returns the text of an HTTP call that posts `body`, a request in JSON, to `/requests`.
///
/// # Errors
///
/// Out of memory.
pub fn post_text(alloc: Global, body: &str) -> Result<String, Oom> {
    let count = body.len();
    Ok(format!(in alloc; "POST /requests HTTP/1.1\r\nContent-Length: {count}\r\n\r\n{body}")?)
}

/// Returns the bytes of `count` HTTP calls, one after another, which ask for the products after the
/// places 0, 1, .. `count` - 1. A place is a number of products, so the call for place 0 asks for
/// the first product.
///
/// # Errors
///
/// Out of memory.
pub fn questions(alloc: Global, count: u32) -> Result<Text, Oom> {
    let mut bytes = List::new(alloc);
    for place in 0..count {
        let question = format!(in alloc; "GET /products/after/{place} HTTP/1.1\r\n\r\n")?;
        bytes.extend(question.as_bytes())?;
    }
    Ok(bytes)
}
