//! The disk of a journal: one file, what a read of it returns, and what a crash may leave of it.
ghost use Rattle.std.specs.Prelude.{◌≡◌, ◌+◌, ℕ, List, Option, Some, length, IfOk, OnOk};
ghost use Rattle.desk_traits.specs.Crash.{AreCrashes, Crashes, Passes};
ghost use Rattle.desk_traits.specs.Faults.{HasCause};
ghost use Rattle.desk_traits.specs.File.{Torn, Same, IsWithin, WritesAt, Gives, IsLength, Only, NotesSync};

use crate::faults::Failed;

/// A file, and what a crash at any moment may leave of it. A range that was written since the last
/// successful sync may hold any bytes after a crash (docs/DECISIONS.md, "Journal and disk").
pub trait Disk {
    /// The bytes that a read returns, if the disk exposes them.
    ghost seen: { Self → Option (List ℕ) };

    /// What a crash may leave, at this moment and since earlier ones.
    ghost crash: { Self → Crashes };

    /// The moments of its successful syncs, in order, if the disk exposes them.
    ghost syncs: { Self → Option (List ℕ) };

    /// The number of failed calls. It stays at 2^64 - 1 once it is there.
    ghost faults: { Self → ℕ };

    /// Returns the file's length in bytes.
    ///
    /// # Errors
    ///
    /// `Failed` if the call failed; the count of faults has risen.
    fn len(&mut self) -> Result<u64, Failed>
        ensures told { IfOk result (λ n. IsLength n (seen self.old)) }
        ensures seen { seen self.new ≡ seen self.old }
        ensures crash { Passes Same (crash self.old) (crash self.new) }
        ensures syncs { syncs self.new ≡ syncs self.old }
        ensures cause { HasCause (faults self.old) (faults self.new) result }
        ensures steady { OnOk result (faults self.new ≡ faults self.old) };

    /// Fills all of `into` with the bytes of the file from byte `at` on, counted from 0. The file
    /// must have that many bytes after `at`.
    ///
    /// # Errors
    ///
    /// `Failed` if the read failed; the count of faults has risen, and `into` may hold any bytes.
    fn read_at(&mut self, at: u64, into: &mut [u8]) -> Result<(), Failed>
        requires { IsWithin (at + length into.old) (seen self.old) }
        ensures told { OnOk result (Gives at into.new (seen self.old)) }
        ensures seen { seen self.new ≡ seen self.old }
        ensures crash { Passes Same (crash self.old) (crash self.new) }
        ensures syncs { syncs self.new ≡ syncs self.old }
        ensures cause { HasCause (faults self.old) (faults self.new) result }
        ensures steady { OnOk result (faults self.new ≡ faults self.old) };

    /// Writes `bytes` over the file from byte `at` on, counted from 0 and at most its length; what
    /// goes past the end makes the file longer. A crash before the next successful sync may leave
    /// any bytes in the range.
    ///
    /// # Errors
    ///
    /// `Failed` if the write failed; the count of faults has risen, and the range may hold any
    /// bytes.
    fn write_at(&mut self, at: u64, bytes: &[u8]) -> Result<(), Failed>
        requires { IsWithin at (seen self.old) }
        ensures seen { WritesAt at bytes.now (seen self.old) (seen self.new) result }
        ensures crash { Passes (Torn at (length bytes.now)) (crash self.old) (crash self.new) }
        ensures syncs { syncs self.new ≡ syncs self.old }
        ensures cause { HasCause (faults self.old) (faults self.new) result }
        ensures steady { OnOk result (faults self.new ≡ faults self.old) };

    /// Makes all earlier writes stable: a crash directly after it leaves what a read returns.
    ///
    /// # Errors
    ///
    /// `Failed` if the sync failed; the count of faults has risen, and nothing more is stable.
    fn sync(&mut self) -> Result<(), Failed>
        ensures durable { OnOk result (Only (seen self.old) (crash self.new).may_leave) }
        ensures seen { seen self.new ≡ seen self.old }
        ensures crash { Passes Same (crash self.old) (crash self.new) }
        ensures syncs { NotesSync (crash self.new).moment (syncs self.old) (syncs self.new) result }
        ensures cause { HasCause (faults self.old) (faults self.new) result }
        ensures steady { OnOk result (faults self.new ≡ faults self.old) };

    /// A crash may leave the file as a read returns it.
    ghost seen_is_left: { (disk : Self) (file : List ℕ) → seen disk ≡ Some file
        → (crash disk).may_leave file };

    /// What a crash may leave now is part of what crashes since earlier moments might have left.
    ghost are_crashes: { (disk : Self) → AreCrashes (crash disk) };
}
