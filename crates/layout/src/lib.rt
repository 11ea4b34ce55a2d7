// The bytes of the blocks of a journal, written and read: descriptor, commit, data; and the numbers that every block is made
// of. A block is a part of 128 bytes that the caller lends; a home store lends it of the whole disk. No function here is a public
// entry of the library: each says in a `requires` what its callers ensure.
#![tactic(auto)]

mod commit_block;
mod data;
mod descriptor_block;
mod disk;
mod words;
mod writing;

pub use commit_block::{
    cores_named, is_commit, name_core, name_number, names_listed, number_named, stamp_in,
    write_commit,
};
pub use data::{block_at, flag_of, load_block, unescape, write_data, write_image};
pub use descriptor_block::{block_byte, block_count, has_bad_field, tag_flag, write_descriptor};
pub use disk::store_home;
pub use words::{BlockKind, MARK, get_word, has_head, pair_word, put_word};
pub use writing::write_words;
