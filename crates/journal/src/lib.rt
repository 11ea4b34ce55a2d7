// The journals read: a disk with its shape, one record, all journals as records by core, the end of one.
// No function here is a public entry of the library: each says in a `requires` what its callers ensure.
#![tactic(auto)]

mod disk; // a disk with its shape
mod extents; // what is kept of a record
mod journals; // all journals
mod records; // records of a disk
mod record; // one record
mod taken; // the blocks that a transaction took
mod walk; // from record to record, and to a journal's end

pub use disk::{Disk, disk_block};
pub use extents::Extent;
pub use journals::Runs;
pub use record::end_number;
pub use records::Records;
