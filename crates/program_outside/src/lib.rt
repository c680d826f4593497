//! What a program has from the system as one value: arguments, input, output, messages, and the
//! files that it opens. For `main` functions and for programs of rows. One begins with `host_io`
//! and `HostFiles::new` in `main`, or makes an `Outside` of streams in memory, and then calls
//! `Outside::given`, or `Outside::run` of a `Program`.
#![tactic(auto)]

mod files;
mod host;
mod outside;
mod program;
mod words;

pub use files::{Access, Files};
pub use host::{HostFiles, HostOutside, host_io};
pub use outside::Outside;
pub use program::Program;
pub use words::words_of;
