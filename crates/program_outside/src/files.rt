//! How a program opens the file of a journal.
ghost use Rattle.std.specs.Prelude.{List, ℕ};
ghost use Rattle.program_outside.specs.declared.files.Access.{Access};

use desk_traits::Disk;

/// What a run does with the file that it opens (docs/DECISIONS.md, "Journal and disk").
#[derive(Clone, Copy, Debug, PartialEq, Eq)]
pub enum Access {
    /// It only reads, which it may do while another program writes.
    Reads,
    /// It writes, so no other program that writes may have the file open.
    Writes,
}

/// Opens the files of journals.
pub trait Files {
    type File: Disk + Send + Drop;

    /// `opens old path access disk new`: the opening of `path` may return this disk, and leave the
    /// value as `new`.
    ghost opens: { Self → List ℕ → Access → Self.File → Self → Type 0 };

    /// Opens the file `path`, which is created empty if it is not there, and returns it as a disk.
    /// If it can't be opened, or `access` is `Writes` and another program that writes has it open,
    /// each call of the disk fails.
    fn open(&mut self, path: &str, access: Access) -> Self::File
        ensures { opens self.old path.now access result self.new };
}
