//! Rows of requests: a line has the JSON of a request, or the name of a refusal, a reply or a
//! fault, and the JSON that the libraries write is printed.

pub mod bytes;
pub mod replies;
pub mod script;
