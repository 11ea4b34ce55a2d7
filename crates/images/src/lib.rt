// Images in the journal: the newest of a block in a set of records, the next block that a set holds, and who shares a block.
// No function here is a public entry of the library: each says in a `requires` what its callers ensure.
#![tactic(auto)]

mod newest;

pub use newest::{Image, image_at, newest_image, next_held, shares_lower};
