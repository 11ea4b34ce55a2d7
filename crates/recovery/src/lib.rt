// RECOVER over the lent cells, and how many home blocks a card counts.
#![tactic(auto)]

mod home; // the home blocks that a card counts
mod journals; // all journals of a disk: their tails, their records, the newest images
mod master; // the first block of a disk
mod restoring; // RECOVER

pub use home::home_count;
pub use journals::{Journals, read_disk};
pub use master::{check_master, disk_shape};
pub use restoring::recover;
