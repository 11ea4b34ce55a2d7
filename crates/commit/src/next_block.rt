// What is stored next of a closed transaction, and where: the descriptor, the copies, the commit.
ghost use Rattle.std.specs.Prelude.{◌≡◌, ◌+◌, ◌<◌, ◌≤◌};
ghost use Rattle.model.specs.Bytes.{block_at};
ghost use Rattle.model.specs.Card.{taken, highest_of, core_of};
ghost use Rattle.model.specs.Layout.{descriptor_block, commit_block, escaped};
ghost use Rattle.model.specs.Commit.{copy_block, copy_tags, closed_number, next_stored, next_position};
ghost use Rattle.model.specs.Limits.{max_taken};
ghost use Rattle.cells.specs.Cells.{transaction_size, transaction_in, card_in};

use cells::{
    BLOCKS, COUNT, HIGHEST, STAMP, STORED, State, USED, block_count, byte_in, closed_place,
    core_place, number_in, tail_at,
};
use close::{copy_at, flags_of};
use model::{Block, Memory, Shape};
use std::array;

// The number of core c's closed transaction: CLOSE moved the count on. Only a card that no run made has the count at 0.
fn closed_number(w: &State, c: u8) -> u32
    requires { c < 8 }
    ensures { result ≡ closed_number (core_of (card_in w.now) c) }
{
    number_in(w, core_place(c)).saturating_sub(1)
}

// The blocks of the transaction at a place, as a value.
fn blocks_of(w: &State, at: usize) -> [u8; Shape::MAX_TAKEN]
    requires { at + transaction_size ≤ 423 }
    ensures { result ≡ (transaction_in w.now at).blocks }
{
    array::from_fn(|i| byte_in(w, at + BLOCKS + i))
}

// The highest number of each core that the transaction at a place names, as a value.
fn highest_of(w: &State, at: usize) -> [u32; 8]
    requires { at + transaction_size ≤ 423 }
    ensures { result ≡ (transaction_in w.now at).highest }
{
    array::from_fn(|c| number_in(w, at + HIGHEST + c))
}

// The descriptor of the closed transaction of core c, which stands at the place given.
fn write_first(block: &mut Block, w: &State, at: usize, number: u32, c: u8, memory: &Memory)
    requires { (at + transaction_size ≤ 423) × (c < 8) }
    ensures { block.new ≡ descriptor_block number (copy_tags c (taken (transaction_in w.now at)) memory.now) }
{
    let flags = flags_of(memory, c);
    let blocks = blocks_of(w, at);
    let count = byte_in(w, at + COUNT);
    layout::write_descriptor(block, number, count, blocks, flags);
}

// A data block: copy i of the core, whatever the image is by now.
fn write_copy(block: &mut Block, c: u8, i: usize, memory: &Memory)
    requires { (c < 8) × (i < max_taken) }
    ensures { block.new ≡ escaped (block_at memory.now (copy_block c i)) }
{
    let image = copy_at(memory, c, i);
    layout::write_data(block, image);
}

// The commit of the transaction at a place.
fn write_last(block: &mut Block, w: &State, at: usize, number: u32)
    requires { (at + transaction_size ≤ 423) }
    ensures { let t = transaction_in w.now at in
        block.new ≡ commit_block number t.stamp (highest_of t) }
{
    let highest = highest_of(w, at);
    let stamp = w[at + STAMP];
    layout::write_commit(block, number, stamp, highest);
}

// What is stored next: the descriptor, then the copies in the order taken, then the commit.
pub fn write_next(block: &mut Block, w: &State, c: u8, memory: &Memory)
    requires { c < 8 }
    ensures { block.new ≡ next_stored c (core_of (card_in w.now) c) memory.now }
{
    let at = closed_place(c);
    let number = closed_number(w, c);
    let done = byte_in(w, core_place(c) + STORED) as usize;
    if done == 0 {
        write_first(block, w, at, number, c, memory);
        return;
    }
    if done <= block_count(w, at) {
        write_copy(block, c, done - 1, memory);
        return;
    }
    write_last(block, w, at, number);
}

// The position of what is stored next: records follow one another from the tail.
pub fn next_position(w: &State, c: u8) -> usize
    requires { c < 8 }
    ensures { result ≡ next_position (card_in w.now) c }
{
    let t = tail_at(w, c);
    let at = core_place(c);
    let used = byte_in(w, at + USED);
    let stored = byte_in(w, at + STORED);
    t.position as usize + used as usize + stored as usize
}
