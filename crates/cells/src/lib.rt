// The card's state in 423 cells of eight bytes that the caller lends: fields read and put, the tails, transactions in place, the
// blocks' holders, the refusals that come first. No function here is a public entry of the library: each says in a `requires` what its
// callers ensure.
#![tactic(auto)]

mod fields; // the header, and where each part stands
mod cores; // a core's numbers
mod transactions; // a transaction at its place
mod holders; // the transaction that holds a block, by its name
mod stores; // the count of stores
mod tails; // where each core's journal begins
mod phases; // the card as each phase begins
mod refusals; // what commands meet first

pub use cores::{CoreNumbers, numbers_at, put_numbers};
pub use fields::{
    BLOCKS, CLOSES, CORE_SIZE, CORES, COUNT, HIGHEST, HOLDERS, HOMED, PHASE, RECOVERED, STAMP,
    STORED, STORES, TAILS, TRANSACTION_SIZE, USED, byte_in, closed_place, core_place, number_in,
    phase_of, running_place, shape_of,
};
pub use holders::{hold, holder_at, is_held, name_of};
pub use phases::{blank, come_up, go_down};
pub use refusals::{check_block, check_core, check_entry, check_phase, check_up, wrong_length};
pub use stores::{put_stores, stores_of};
pub use tails::{put_tail, tail_at, tails_of};
pub use transactions::{block_count, clear, is_live};

// The card's state: the cells that the caller lends.
pub type State = [u64; 423];
