// The writer and the reader of the header in one crate, and the theorems that they fit together.
#![tactic(auto)]

pub use header_read::read;
pub use header_write::write;
