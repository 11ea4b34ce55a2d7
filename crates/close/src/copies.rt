// The closed copies in memory: the 64 images are followed by eight copies to a core.
ghost use Rattle.std.specs.Prelude.{◌≡◌, ℕ, ◌+◌, ◌%◌, ◌<◌, ◌≤◌, map};
ghost use Rattle.model.specs.Lists.{below};
ghost use Rattle.model.specs.Bytes.{block_at, store};
ghost use Rattle.model.specs.Card.{taken};
ghost use Rattle.model.specs.Layout.{flag_of};
ghost use Rattle.model.specs.Commit.{copy_block, copied};
ghost use Rattle.model.specs.Limits.{max_taken};
ghost use Rattle.cells.specs.Cells.{transaction_size, transaction_in};

use cells::{BLOCKS, State, block_count, byte_in};
use model::{Memory, Shape};
use std::array;

// The memory block of a core's copy i.
fn copy_place(c: u8, i: usize) -> usize
    requires { i < max_taken }
    ensures { result ≡ copy_block c i }
{
    64 + Shape::MAX_TAKEN * c as usize + i
}

// The image of a block copied to copy i of a core, through a value: two parts of memory cannot be lent at once. Only a
// card that no run made has a block past the 64 images; its number counts round.
fn copy_image(memory: &mut Memory, c: u8, i: usize, b: u8)
    requires { (c < 8) × (i < max_taken) }
    ensures { memory.new ≡ store memory.old (copy_block c i) (block_at memory.old (b % 64)) }
{
    let image = layout::load_block(memory, b as usize % 64);
    let start = Shape::BLOCK_SIZE * copy_place(c, i);
    let end = start + Shape::BLOCK_SIZE;
    memory[start..end].copy_from_slice(&image);
}

// The images of the blocks of the transaction at a place, in the order taken, to the first of its core's copies onward.
pub fn copy_images(w: &State, at: usize, c: u8, memory: &mut Memory)
    requires { (at + transaction_size ≤ 423) × (c < 8) }
    ensures { memory.new ≡ copied c 0 (taken (transaction_in w.now at)) memory.old }
{
    let count = block_count(w, at);
    for i in 0..count {
        let b = byte_in(w, at + BLOCKS + i);
        copy_image(memory, c, i, b);
    }
}

// Copy i of a core, as a value.
pub fn copy_at(memory: &Memory, c: u8, i: usize) -> [u8; Shape::BLOCK_SIZE]
    requires { (c < 8) × (i < max_taken) }
    ensures { result ≡ block_at memory.now (copy_block c i) }
{
    layout::load_block(memory, copy_place(c, i))
}

// The escape flags of a core's copies: of all eight, since the descriptor itself leaves out what was not taken.
pub fn flags_of(memory: &Memory, c: u8) -> [u8; Shape::MAX_TAKEN]
    requires { c < 8 }
    ensures { result ≡ map (λ (i : ℕ). flag_of (block_at memory.now (copy_block c i))) (below max_taken) }
{
    array::from_fn(|i| layout::flag_of(copy_at(memory, c, i)))
}
