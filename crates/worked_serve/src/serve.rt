//! Rows of serving: a script sets the calls that come on links, and what a server over a disk in
//! memory does with them is printed. It serves one link, the doors of a port in memory, or a port
//! of this machine.

pub mod answers;
pub mod calls;
pub mod gate;
pub mod given;
pub mod links;
pub mod ports;
pub mod real;
pub mod script;
pub mod sweeps;
pub mod words;
