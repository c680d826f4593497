//! A gate that holds a call.
use desk_links::Gate;
use std::sync::atomic::{AtomicU64, Ordering};

/// How often a gate looks for the end of another call before it gives up.
const MOST_LOOKS: u64 = 1_000_000_000;

/// A gate that, if it holds, lets the first call enter only after another one has left, or after
/// `MOST_LOOKS` looks.
#[derive(Drop)]
pub struct HoldingGate {
    holds: bool,
    entered: AtomicU64,
    answered: AtomicU64,
    spent: AtomicU64,
}

impl HoldingGate {
    /// Returns a gate that no call has entered. `holds` is whether it holds the first call until
    /// another one has left.
    pub fn new(holds: bool) -> Self {
        HoldingGate {
            holds,
            entered: AtomicU64::new(0),
            answered: AtomicU64::new(0),
            spent: AtomicU64::new(0),
        }
    }

    /// Waits until a call has left the gate. After 1,000,000,000 looks at which none had left it
    /// gives up and returns, and records this for `is_spent`.
    fn wait(&self) {
        for _ in 0..MOST_LOOKS {
            if 0 < self.answered.load(Ordering::SeqCst) {
                return;
            }
        }
        let _ = self.spent.fetch_add(1, Ordering::SeqCst);
    }

    /// Whether a call was held in vain: no other call had left when the gate gave up, after
    /// 1,000,000,000 looks.
    pub fn is_spent(&self) -> bool {
        0 < self.spent.load(Ordering::SeqCst)
    }
}

impl Gate for HoldingGate {
    fn enter(&self, _call: u64) {
        let before = self.entered.fetch_add(1, Ordering::SeqCst);
        if self.holds && before == 0 {
            self.wait();
        }
    }

    fn leave(&self, _call: u64) {
        let _ = self.answered.fetch_add(1, Ordering::SeqCst);
    }
}
