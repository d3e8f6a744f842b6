//! Feeds of records in bytes, and the reader over them.
#![tactic(auto)]

mod decode;
mod fault;
mod laws;
mod reader;
mod record;

pub use fault::first_fault;
pub use laws::feeds;
pub use reader::Reader;
pub use record::Record;
