// A core's oldest committed transaction. No function here is a public entry of the library: each says in a `requires` what its callers
// ensure.
#![tactic(auto)]

mod committed; // how many each core has, and its oldest one
mod shared; // others that share a block with it
mod refusals; // whether it may be stored home and retired
mod asked; // what CHECKPOINT and RETIRE both ask

pub use asked::{ask_oldest, homed};
pub use committed::read_committed;
pub use shared::block_at;
