//! Rows of what is outside an office: sources, sinks, disks, links, ports, dialers and clocks in
//! memory, and journals on such disks. Each line has one of them with its faults and the calls that
//! are made of it.

pub mod disks;
pub mod journals;
pub mod links;
pub mod ports;
pub mod real;
pub mod script;
pub mod streams;
pub mod told;
pub mod words;
