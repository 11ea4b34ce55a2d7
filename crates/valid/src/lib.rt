// The valid set of the committed transactions.
// No function here is a public entry of the library: each says in a `requires` what its callers ensure.
#![tactic(auto)]

mod shrinking;

pub use shrinking::{total_count, valid_runs};
