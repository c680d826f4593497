//! What a script sets for a run of the follower.
use hazard_types::{List, Oom, Text};
use std::alloc::Global;
use std::mem;

/// The bytes that come on a link, and the numbers of its calls (reads and writes together) that
/// fail.
#[derive(Drop)]
pub struct LinkGiven {
    pub bytes: Text,
    pub failing: List<u64>,
}

impl LinkGiven {
    /// Returns a link on which no bytes come and no call fails.
    pub fn new(alloc: Global) -> Self {
        LinkGiven {
            bytes: List::new(alloc),
            failing: List::new(alloc),
        }
    }
}

/// The links of a dialer, the numbers of the dials that fail, and those of the writes of the output
/// that fail.
#[derive(Drop)]
pub struct Given {
    pub links: List<LinkGiven>,
    pub dials: List<u64>,
    pub writes: List<u64>,
}

impl Given {
    /// Returns a dialer without links, and no dial or write that fails.
    pub fn new(alloc: Global) -> Self {
        Given {
            links: List::new(alloc),
            dials: List::new(alloc),
            writes: List::new(alloc),
        }
    }

    /// Appends `link` to the links of the dialer, and leaves an empty one in its place.
    ///
    /// # Errors
    ///
    /// Out of memory.
    pub fn take_link(&mut self, alloc: Global, link: &mut LinkGiven) -> Result<(), Oom> {
        self.links.push(mem::replace(link, LinkGiven::new(alloc)))
    }
}
