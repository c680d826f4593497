//! Where callers sleep until their turn: an atomic word for each place in line.
ghost use Rattle.std.specs.Prelude.{◌≡◌, vec_len};

use hazard_types::Oom;
use std::alloc::Global;
use std::sync::Wait;
use std::sync::atomic::{AtomicU64, Ordering};

/// The number of words. Callers beyond it share words, and are woken together.
const BELLS: usize = 64;

/// The word of a bell at which nobody sleeps.
const SILENT: u64 = 0;

/// The words at which callers sleep. A caller marks its ticket's word, looks at the served ticket
/// once more and sleeps while the mark is there; the one who passes the turn on removes the mark
/// and wakes that word alone. No proof rests on these words (docs/DECISIONS.md, "Turns").
#[derive(Drop)]
pub(crate) struct Bells {
    row: Vec<AtomicU64>,
    ghost many: { vec_len row ≡ 64 },
}

/// Returns the mark that the holder of a ticket sets before sleeping: an odd number, so never 0,
/// which stands for no mark. Tickets that differ by a multiple of 2^31 have the same mark.
fn mark_of(ticket: u64) -> u32 {
    (ticket % (1 << 31)) as u32 * 2 + 1
}

impl Bells {
    /// Returns 64 bells (words at which callers sleep), at which nobody sleeps. `Err` is out of
    /// memory.
    pub(crate) fn new(alloc: Global) -> Result<Self, Oom> {
        let mut row = Vec::with_capacity(alloc, BELLS)?;
        for _ in 0..BELLS {
            row.push_reserved(AtomicU64::new(SILENT));
        }
        Ok(Bells { row })
    }

    /// Returns the word at which the holder of a ticket sleeps. Tickets that differ by a multiple
    /// of 64 have the same word.
    fn bell(&self, ticket: u64) -> &AtomicU64 {
        &self.row[(ticket % BELLS as u64) as usize]
    }

    /// Marks that the ticket's holder is about to sleep.
    pub(crate) fn mark(&self, ticket: u64) {
        self.bell(ticket)
            .store(u64::from(mark_of(ticket)), Ordering::SeqCst);
    }

    /// Sleeps while the ticket's mark is there, until a wake. It may return earlier.
    pub(crate) fn sleep<R: Wait>(&self, rt: &R, ticket: u64) {
        self.bell(ticket).park(rt, mark_of(ticket));
    }

    /// Wakes all who sleep at the ticket's word and removes the mark there; does nothing if the
    /// word has no mark.
    pub(crate) fn ring(&self, ticket: u64) {
        let bell = self.bell(ticket);
        if bell.load(Ordering::SeqCst) != SILENT {
            bell.store(SILENT, Ordering::SeqCst);
            bell.wake_all();
        }
    }
}
