//! The list of a lock that the threads take turns at.
ghost use Rattle.std.specs.Prelude.{◌≡◌, ◌++◌, ◌∷◌, [], OnOk, OnErr};

use hazard_types::Oom;
use std::alloc::Global;
use turn_lock::Storied;

/// Who added an entry.
#[derive(Clone, Copy, Debug, PartialEq, Eq)]
pub enum Entry {
    /// The thread that had the first turn.
    Held,
    /// A thread that waited for its turn.
    Waited,
}

/// The entries so far.
#[derive(Drop)]
pub struct Entries {
    pub items: Vec<Entry>,
}

impl Entries {
    /// Returns an empty list of entries.
    pub fn new(alloc: Global) -> Self
        ensures { result.items.items ≡ [] }
    {
        Entries {
            items: Vec::new(alloc),
        }
    }

    /// Appends an entry to the list.
    ///
    /// # Errors
    ///
    /// Out of memory; the list is unchanged.
    pub fn add(&mut self, entry: Entry) -> Result<(), Oom>
        ensures ok { OnOk result (self.new.items.items ≡ self.old.items.items ++ entry ∷ []) }
        ensures err { OnErr result (self.new.items.items ≡ self.old.items.items) }
    {
        self.items.push(entry)?;
        Ok(())
    }
}

impl Storied for Entries {
    type Base = ();

    type Entry = Entry;

    ghost base = { λ _. tt };

    ghost story = { λ entries. entries.items.items };

    fn count(&self) -> u64 {
        self.items.len() as u64
    }
}
