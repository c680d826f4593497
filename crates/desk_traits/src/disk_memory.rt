//! The calls of a disk in memory.
ghost use Rattle.std.specs.Prelude.{◌≡◌, ◌⊎◌, ◌≤◌, ◌<◌, ◌+◌, ◌++◌, ◌∷◌, ◌↔◌, [], Some, true, false, Contains, length, take, drop, OnOk, OnErr, IfOk, IsTrue, if◌then◌else◌};
ghost use Rattle.desk_traits.specs.Crash.{Passes};
ghost use Rattle.desk_traits.specs.Faults.{HasCause, Rose, next_count};
ghost use Rattle.desk_traits.specs.File.{Torn, Same, IsWithin, WritesAt, Gives, IsLength, Only, NotesSync};
ghost use Rattle.desk_traits.specs.DiskMemory.{is_write, picked};
ghost use Rattle.desk_traits.specs.DiskTold.{told_of, calls_of, has_lacked, IsPast, IsToFail, Comes, Counts};
ghost use Rattle.desk_traits.specs.declared.disk_record.DiskCall.TheVariants.{Looked, Read, Wrote, Synced, LookFailed, ReadFailed, WriteFailed, SyncFailed};

use crate::disk::Disk;
use crate::disk_crash::{file_left, splice};
use crate::disk_record::{DiskCall, MemDisk};
use crate::faults::Failed;
use hazard_types::{List, Oom, Text};
use std::alloc::Global;

/// Writes `bytes` over the file from byte `at` on, counted from 0 and at most its length, and
/// appends the write to `calls`. If memory runs out, both are as before.
fn put(
    alloc: Global,
    file: &mut Text,
    calls: &mut Vec<DiskCall>,
    at: u64,
    bytes: &[u8],
) -> Result<(), Oom>
    requires { at ≤ length file.old }
    ensures file { OnOk result
        (file.new ≡ take at file.old ++ (bytes.now ++ drop (at + length bytes.now) file.old)) }
    ensures calls { OnOk result (calls.new.items ≡ calls.old.items ++ Wrote at bytes.now ∷ []) }
    ensures same { OnErr result (file.new ≡ file.old) }
    ensures same_calls { OnErr result (calls.new.items ≡ calls.old.items) }
{
    let next = splice(alloc, file, at as usize, bytes)?;
    let bytes = List::from_slice(alloc, bytes)?;
    calls.push(DiskCall::Wrote { at, bytes })?;
    *file = next;
    Ok(())
}

/// Appends a call to the record `calls`, and returns whether there was memory for it; if not, the
/// record is unchanged.
fn note(calls: &mut Vec<DiskCall>, call: DiskCall) -> bool
    ensures { calls.new.items ≡ (if result then calls.old.items ++ call ∷ [] else calls.old.items) }
{
    calls.push(call).is_ok()
}

/// Appends a failed write of `bytes` at byte `at` to the record `calls`, and returns whether there
/// was memory for it; if not, the record is unchanged.
fn record_failed_write(alloc: Global, calls: &mut Vec<DiskCall>, at: u64, bytes: &[u8]) -> bool
    ensures { calls.new.items
        ≡ (if result then calls.old.items ++ WriteFailed at bytes.now ∷ [] else calls.old.items) }
{
    match List::from_slice(alloc, bytes) {
        Ok(bytes) => note(calls, DiskCall::WriteFailed { at, bytes }),
        Err(_) => false,
    }
}

/// Whether the call with this number, 1 for the first, is to fail: its number is in `failing`, or
/// is greater than `stop`, if that is not `None`.
fn is_to_fail(failing: &List<u64>, stop: Option<u64>, number: u64) -> bool
    ensures { IsTrue result ↔ (Contains failing.now number ⊎ IsPast stop number) }
{
    match stop {
        Some(last) if last < number => true,
        _ => failing.as_slice().contains(&number),
    }
}

impl MemDisk {
    /// Returns a disk with the file `bytes`, all of it stable. Call n, 1 for the first, fails if n
    /// is in `failing` or greater than `stop` (`None` for no such limit), and so does each call for
    /// which memory runs out. `pick` chooses what a crash leaves: each write since the last
    /// successful sync takes a digit of it in base 4, from the lowest on, 0 for nothing of the
    /// write, 1 all, 2 the first half, 3 as many bytes `G` (docs/DECISIONS.md, "Journal and disk").
    ///
    /// # Errors
    ///
    /// Out of memory.
    pub fn new(
        alloc: Global,
        bytes: &[u8],
        failing: &List<u64>,
        stop: Option<u64>,
        pick: u64,
    ) -> Result<Self, Oom>
        ensures file { IfOk result (λ disk. ⟦<MemDisk as Disk>⟧.seen disk ≡ Some bytes.now) }
        ensures stable { IfOk result
            (λ disk. (c : _) → (⟦<MemDisk as Disk>⟧.crash disk).may_leave c → c ≡ bytes.now) }
        ensures faults { IfOk result (λ disk. ⟦<MemDisk as Disk>⟧.faults disk ≡ 0) }
        ensures told { IfOk result (λ disk. told_of disk ≡ record {
          first = bytes.now;
          failing = failing.now;
          stop = stop;
          pick = pick;
          made = 0;
        }) }
        ensures calls { IfOk result (λ disk. calls_of disk ≡ []) }
        ensures lacked { IfOk result (λ disk. has_lacked disk ≡ false) }
    {
        let first = List::from_slice(alloc, bytes)?;
        Ok(MemDisk {
            alloc,
            file: first.clone()?,
            first,
            calls: Vec::new(alloc),
            failing: failing.clone()?,
            stop,
            pick,
            count: 0,
            faults: 0,
            lacked: false,
        })
    }

    /// Returns the file as a read returns it.
    pub fn file(&self) -> &Text
        ensures { ⟦<MemDisk as Disk>⟧.seen self.now ≡ Some result.now }
    {
        &self.file
    }

    /// Returns the calls so far, in order, with their outcomes; those for which memory ran out are
    /// not among them.
    pub fn calls(&self) -> &[DiskCall]
        ensures { result.now ≡ calls_of self.now }
    {
        &self.calls
    }

    /// Returns the file that a crash at this moment leaves, as the number `pick` given to `new`
    /// chooses it.
    ///
    /// # Errors
    ///
    /// Out of memory.
    pub fn crashed(self) -> Result<Text, Oom>
        ensures left { IfOk result (λ file. (⟦<MemDisk as Disk>⟧.crash self).may_leave file) }
        ensures chosen { IfOk result
            (λ file. file ≡ picked (told_of self).first (told_of self).pick (calls_of self)) }
    {
        file_left(self.alloc, &self.first, self.pick, &self.calls)
    }

    /// Counts one more call, and returns whether this call is to fail: its number, 1 for the first,
    /// is in `failing` or greater than `stop`, as these were given to `MemDisk::new`.
    fn called(&mut self) -> bool
        ensures first { self.new.first ≡ self.old.first }
        ensures file { self.new.file ≡ self.old.file }
        ensures calls { self.new.calls ≡ self.old.calls }
        ensures told { told_of self.new ≡ record {
          first = self.old.first;
          failing = self.old.failing;
          stop = self.old.stop;
          pick = self.old.pick;
          made = next_count self.old.count;
        } }
        ensures fails { IsTrue result ↔ IsToFail (told_of self.old) }
        ensures faults { self.new.faults ≡ self.old.faults }
        ensures lacked { self.new.lacked ≡ self.old.lacked }
    {
        self.count = self.count.saturating_add(1);
        is_to_fail(&self.failing, self.stop, self.count)
    }

    /// Adds one to the count of failed calls. `noted` is whether the call is in the record of
    /// calls; if it is false, the disk keeps for good that a call is missing from its record.
    fn failed(&mut self, noted: bool)
        ensures first { self.new.first ≡ self.old.first }
        ensures file { self.new.file ≡ self.old.file }
        ensures calls { self.new.calls ≡ self.old.calls }
        ensures told { told_of self.new ≡ told_of self.old }
        ensures later { self.old.faults ≤ self.new.faults }
        ensures rose { Rose self.old.faults self.new.faults }
        ensures counted { self.new.faults ≡ next_count self.old.faults }
        ensures lacked { self.new.lacked ≡ (if noted then self.old.lacked else true) }
    {
        self.faults = self.faults.saturating_add(1);
        self.lacked = self.lacked || !noted;
    }

    /// Counts and records a call that is not a write, and returns whether it succeeded. If its
    /// number is in `failing` or greater than `stop`, it fails and is recorded as `failed`, else it
    /// is recorded as `good`. If there is no memory for the record, the call fails and is not
    /// recorded.
    fn asked(&mut self, good: DiskCall, failed: DiskCall) -> bool
        requires good { is_write good ≡ false }
        requires failed { is_write failed ≡ false }
        ensures first { self.new.first ≡ self.old.first }
        ensures file { self.new.file ≡ self.old.file }
        ensures told { told_of self.new ≡ record {
          first = self.old.first;
          failing = self.old.failing;
          stop = self.old.stop;
          pick = self.old.pick;
          made = next_count self.old.count;
        } }
        ensures comes { Comes (IsToFail (told_of self.old)) self.old.calls.items
            self.new.calls.items good failed self.old.lacked self.new.lacked result }
        ensures later { self.old.faults ≤ self.new.faults }
        ensures cause { result ≡ false → Rose self.old.faults self.new.faults }
        ensures steady { result ≡ true → self.new.faults ≡ self.old.faults }
        ensures counted { result ≡ false → self.new.faults ≡ next_count self.old.faults }
    {
        if self.called() {
            let noted = note(&mut self.calls, failed);
            self.failed(noted);
            return false;
        }
        if note(&mut self.calls, good) {
            return true;
        }
        self.failed(false);
        false
    }
}

impl Disk for MemDisk {
    ghost use Rattle.desk_traits.specs.DiskMemory.{crashes_of, synced_at};
    ghost use Rattle.desk_traits.specs.DiskMemoryLaws.{they_are, seen_may};

    ghost seen = { λ m. Some m.file };

    ghost crash = { λ m. crashes_of m.first m.calls.items };

    ghost syncs = { λ m. Some (synced_at 0 m.calls.items) };

    ghost faults = { λ m. m.faults };

    ghost seen_is_left = { λ m f told. seen_may m.first m.file f m.calls.items m.kept told };

    ghost are_crashes = { λ m. they_are m.first m.calls.items };

    fn len(&mut self) -> Result<u64, Failed>
        ensures told { IfOk result (λ n. IsLength n (⟦<MemDisk as Disk>⟧.seen self.old)) }
        ensures seen { ⟦<MemDisk as Disk>⟧.seen self.new ≡ ⟦<MemDisk as Disk>⟧.seen self.old }
        ensures crash { Passes Same (⟦<MemDisk as Disk>⟧.crash self.old)
            (⟦<MemDisk as Disk>⟧.crash self.new) }
        ensures syncs { ⟦<MemDisk as Disk>⟧.syncs self.new ≡ ⟦<MemDisk as Disk>⟧.syncs self.old }
        ensures cause { HasCause (⟦<MemDisk as Disk>⟧.faults self.old)
            (⟦<MemDisk as Disk>⟧.faults self.new) result }
        ensures steady { OnOk result
            (⟦<MemDisk as Disk>⟧.faults self.new ≡ ⟦<MemDisk as Disk>⟧.faults self.old) }
        ensures counted { OnErr result
            (⟦<MemDisk as Disk>⟧.faults self.new
            ≡ next_count (⟦<MemDisk as Disk>⟧.faults self.old)) }
        ensures counts { Counts self.old self.new Looked LookFailed result }
    {
        if self.asked(DiskCall::Looked, DiskCall::LookFailed) {
            Ok(self.file.len() as u64)
        } else {
            Err(Failed)
        }
    }

    fn read_at(&mut self, at: u64, into: &mut [u8]) -> Result<(), Failed>
        requires { IsWithin (at + length into.old) (⟦<MemDisk as Disk>⟧.seen self.old) }
        ensures told { OnOk result (Gives at into.new (⟦<MemDisk as Disk>⟧.seen self.old)) }
        ensures seen { ⟦<MemDisk as Disk>⟧.seen self.new ≡ ⟦<MemDisk as Disk>⟧.seen self.old }
        ensures crash { Passes Same (⟦<MemDisk as Disk>⟧.crash self.old)
            (⟦<MemDisk as Disk>⟧.crash self.new) }
        ensures syncs { ⟦<MemDisk as Disk>⟧.syncs self.new ≡ ⟦<MemDisk as Disk>⟧.syncs self.old }
        ensures cause { HasCause (⟦<MemDisk as Disk>⟧.faults self.old)
            (⟦<MemDisk as Disk>⟧.faults self.new) result }
        ensures steady { OnOk result
            (⟦<MemDisk as Disk>⟧.faults self.new ≡ ⟦<MemDisk as Disk>⟧.faults self.old) }
        ensures counted { OnErr result
            (⟦<MemDisk as Disk>⟧.faults self.new
            ≡ next_count (⟦<MemDisk as Disk>⟧.faults self.old)) }
        ensures counts { Counts self.old self.new (Read at (length into.old))
            (ReadFailed at (length into.old)) result }
    {
        let count = into.len();
        if !self.asked(
            DiskCall::Read { at, count },
            DiskCall::ReadFailed { at, count },
        ) {
            return Err(Failed);
        }
        let from = at as usize;
        into.copy_from_slice(&self.file.as_slice()[from..from + count]);
        Ok(())
    }

    fn write_at(&mut self, at: u64, bytes: &[u8]) -> Result<(), Failed>
        requires { IsWithin at (⟦<MemDisk as Disk>⟧.seen self.old) }
        ensures seen { WritesAt at bytes.now (⟦<MemDisk as Disk>⟧.seen self.old)
            (⟦<MemDisk as Disk>⟧.seen self.new) result }
        ensures crash { Passes (Torn at (length bytes.now)) (⟦<MemDisk as Disk>⟧.crash self.old)
            (⟦<MemDisk as Disk>⟧.crash self.new) }
        ensures syncs { ⟦<MemDisk as Disk>⟧.syncs self.new ≡ ⟦<MemDisk as Disk>⟧.syncs self.old }
        ensures cause { HasCause (⟦<MemDisk as Disk>⟧.faults self.old)
            (⟦<MemDisk as Disk>⟧.faults self.new) result }
        ensures steady { OnOk result
            (⟦<MemDisk as Disk>⟧.faults self.new ≡ ⟦<MemDisk as Disk>⟧.faults self.old) }
        ensures counted { OnErr result
            (⟦<MemDisk as Disk>⟧.faults self.new
            ≡ next_count (⟦<MemDisk as Disk>⟧.faults self.old)) }
        ensures counts { Counts self.old self.new (Wrote at bytes.now) (WriteFailed at bytes.now)
            result }
    {
        if self.called() {
            let noted = record_failed_write(self.alloc, &mut self.calls, at, bytes);
            self.failed(noted);
            return Err(Failed);
        }
        match put(self.alloc, &mut self.file, &mut self.calls, at, bytes) {
            Ok(()) => Ok(()),
            Err(_) => {
                self.failed(false);
                Err(Failed)
            }
        }
    }

    fn sync(&mut self) -> Result<(), Failed>
        ensures durable { OnOk result
            (Only (⟦<MemDisk as Disk>⟧.seen self.old)
            (⟦<MemDisk as Disk>⟧.crash self.new).may_leave) }
        ensures seen { ⟦<MemDisk as Disk>⟧.seen self.new ≡ ⟦<MemDisk as Disk>⟧.seen self.old }
        ensures crash { Passes Same (⟦<MemDisk as Disk>⟧.crash self.old)
            (⟦<MemDisk as Disk>⟧.crash self.new) }
        ensures syncs { NotesSync (⟦<MemDisk as Disk>⟧.crash self.new).moment
            (⟦<MemDisk as Disk>⟧.syncs self.old) (⟦<MemDisk as Disk>⟧.syncs self.new) result }
        ensures cause { HasCause (⟦<MemDisk as Disk>⟧.faults self.old)
            (⟦<MemDisk as Disk>⟧.faults self.new) result }
        ensures steady { OnOk result
            (⟦<MemDisk as Disk>⟧.faults self.new ≡ ⟦<MemDisk as Disk>⟧.faults self.old) }
        ensures counted { OnErr result
            (⟦<MemDisk as Disk>⟧.faults self.new
            ≡ next_count (⟦<MemDisk as Disk>⟧.faults self.old)) }
        ensures counts { Counts self.old self.new Synced SyncFailed result }
    {
        if self.asked(DiskCall::Synced, DiskCall::SyncFailed) {
            Ok(())
        } else {
            Err(Failed)
        }
    }
}
