// Paper 02, (e): how much work until the journals are empty. Nothing is done here: state and slices are only read.
#![tactic(auto)]

mod works; // the work left of each transaction
mod order; // those found are counted, and put in order
mod planning; // the plan
mod buffer; // the plan in a lent buffer

pub use buffer::lay_plan;
pub use planning::plan;

// What is left of one transaction: its name (8 * number + core), its stamp, which a running one gets at its CLOSE, and the stores to do.
#[derive(Clone, Copy)]
pub struct Work {
    pub name: u64,
    pub stamp: Option<u64>,
    pub stores: usize,
}

// The works found so far: commands and stores left of them, how many have a stamp, how many there are; their stamps, ascending; and their
// names in that order, with those of the running ones behind them. Places not used are zero.
#[derive(Drop)]
pub struct Found {
    pub commands: usize,
    pub stores: usize,
    pub stamped: usize,
    pub count: usize,
    pub stamps: [u64; 112],
    pub names: [u64; 112],
}

// A plan: how many commands will empty every journal, and how many of them store; how many transactions they retire, and their names in
// order, each 8 * number + core. Places not used are zero.
#[derive(Drop)]
pub struct PlannedWork {
    pub commands: usize,
    pub stores: usize,
    pub count: usize,
    pub order: [u64; 112],
}
