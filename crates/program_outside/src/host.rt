//! The system's arguments, streams and files. They are trusted.
use crate::files::{Access, Files};
use crate::outside::Outside;
use crate::words::words_of;
use byte_streams::{StdSink, StdSource};
use desk_traits::FileDisk;
use std::env;
use std::fs::File;
use std::io::{self, Printer, Stderr, StdinLock};

/// The outside of a program that the system started.
pub type HostOutside<'a> = Outside<
    StdSource<StdinLock<'a>>,
    StdSink<Printer<'a, HostRuntime>>,
    StdSink<Stderr>,
>;

/// Returns what the system gives the program: the allocator, the arguments (or `Oom` if memory ran
/// out for them), standard input, standard output, and standard error as the sink of messages.
pub fn host_io(rt: &HostRuntime) -> HostOutside<'_> {
    Outside {
        alloc: rt.alloc(),
        words: words_of(rt.alloc(), env::args(rt)),
        input: StdSource::new(rt.reader()),
        output: StdSink::new(io::writer(rt)),
        messages: StdSink::new(rt.stderr()),
    }
}

/// The files of the system.
#[derive(Drop)]
pub struct HostFiles<'a> {
    rt: &'a HostRuntime,
}

impl<'a> HostFiles<'a> {
    /// Returns a value that opens files of the system of `rt`.
    pub fn new(rt: &'a HostRuntime) -> Self {
        HostFiles { rt }
    }

    /// Opens the file `path` for reading and writing, whatever `access` is, and creates it empty if
    /// it is not there. With `Access::Writes` it is locked until it is closed; with `Access::Reads`
    /// no lock is taken or asked for.
    ///
    /// # Errors
    ///
    /// The system's error; with `Access::Writes`, also if another program holds the lock.
    fn file(&self, path: &str, access: Access) -> io::Result<File> {
        let file = File::options()
            .read(true)
            .write(true)
            .create(true)
            .open(self.rt, path)?;
        if access == Access::Writes {
            file.try_lock()?;
        }
        Ok(file)
    }
}

impl Files for HostFiles<'_> {
    type File = FileDisk;

    ghost opens = { λ _ _ _ _ _. Unit {0} };

    /// Returns the file `path` as a disk, created empty if it is not there, and locked if `access`
    /// is `Writes`. If the file can't be opened or locked, each call of the disk fails.
    fn open(&mut self, path: &str, access: Access) -> FileDisk {
        FileDisk::new(self.file(path, access).ok())
    }
}
