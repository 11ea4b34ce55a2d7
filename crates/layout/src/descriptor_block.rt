// The descriptor of a record: the blocks that its transaction took, each with its escape flag.
ghost use Rattle.std.specs.Prelude.{◌≡◌, map, ℕ, ◌+◌, ◌≤◌, ◌<◌, min, get_or};
ghost use Rattle.model.specs.Lists.{below};
ghost use Rattle.model.specs.Layout.{new_tag, descriptor_block, pair_at, is_tag, block_count};
ghost use Rattle.model.specs.JournalEnds.{has_bad_field};
ghost use Rattle.model.specs.Limits.{max_taken};
ghost use Rattle.layout.specs.Words.{descriptor_from};
ghost use Rattle.layout.specs.Loops.{every};
ghost use Rattle.layout.specs.Distinct.{is_new};
ghost use Rattle.layout.specs.Narrow.{BlocksBelow};

use crate::words::{BlockKind, MARK, get_word, pair_word};
use crate::writing::write_words;
use model::{Block, Shape};

// Word i of a descriptor.
fn descriptor_word(
    number: u32,
    count: u8,
    blocks: [u8; Shape::MAX_TAKEN],
    flags: [u8; Shape::MAX_TAKEN],
    i: usize,
) -> u32
    ensures { result ≡ get_or (descriptor_from number (min count max_taken) blocks flags) i 0 }
{
    let n = count.min(Shape::MAX_TAKEN as u8);
    if i < 4 {
        let head = [MARK, BlockKind::Descriptor.number(), number, u32::from(n)];
        return head[i];
    }
    let k = (i - 4) / 2;
    if n as usize <= k {
        return 0;
    }
    pair_word(u32::from(blocks[k]), u32::from(flags[k]), i - 4)
}

// The descriptor of a transaction that took so many of these blocks.
pub fn write_descriptor(
    block: &mut Block,
    number: u32,
    count: u8,
    blocks: [u8; Shape::MAX_TAKEN],
    flags: [u8; Shape::MAX_TAKEN],
)
    ensures { block.new
        ≡ descriptor_block number (map (λ (i : ℕ). new_tag (get_or blocks i 0) (get_or flags i 0)) (below (min count max_taken))) }
{
    write_words(block, |i| descriptor_word(number, count, blocks, flags, i));
}

// How many blocks the descriptor says that it has.
pub fn block_count(block: &Block) -> u32
    ensures { result ≡ block_count block.now }
{
    get_word(block, 12)
}

// The i-th block of a descriptor, all four bytes of it: what the range test looks at.
fn tag_block(block: &Block, i: usize) -> u32
    requires { i < max_taken }
    ensures { result ≡ (pair_at new_tag block.now 16 i).block }
{
    get_word(block, 16 + 8 * i)
}

// The i-th block of a descriptor, once its range has been tested: of the four bytes the last one is left.
pub fn block_byte(block: &Block, i: usize) -> u8
    requires { (i < max_taken) × ((pair_at new_tag block.now 16 i).block < 256) }
    ensures { result ≡ (pair_at new_tag block.now 16 i).block }
{
    block[16 + 8 * i + 3]
}

// The flag of the i-th block of a descriptor.
pub fn tag_flag(block: &Block, i: usize) -> u32
    requires { i < max_taken }
    ensures { result ≡ (pair_at new_tag block.now 16 i).flag }
{
    get_word(block, 16 + 8 * i + 4)
}

// The i-th block is one that the disk has, and its flag is 0 or 1.
fn is_tag(s: Shape, block: &Block, i: usize) -> bool
    requires { i < max_taken }
    ensures { result ≡ is_tag s (pair_at new_tag block.now 16 i) }
{
    tag_block(block, i) < s.blocks as u32 && tag_flag(block, i) <= 1
}

fn are_tags(s: Shape, block: &Block, n: usize) -> bool
    requires { n ≤ max_taken }
    ensures { result ≡ every n (λ (i : ℕ). is_tag s (pair_at new_tag block.now 16 i)) }
{
    (0..n).all(|i| is_tag(s, block, i))
}

// The i-th block is none of those before it. The range of all of them has been tested.
fn is_new(block: &Block, i: usize) -> bool
    requires { (i < max_taken) × BlocksBelow 256 block.now (i + 1) }
    ensures { result ≡ is_new block.now i }
{
    let x = block_byte(block, i);
    (0..i).all(|j| block_byte(block, j) != x)
}

fn are_new(block: &Block, n: usize) -> bool
    requires { (n ≤ max_taken) × BlocksBelow 256 block.now n }
    ensures { result ≡ every n (is_new block.now) }
{
    (0..n).all(|i| is_new(block, i))
}

// The descriptor has a field out of range, or a block twice. Where it counts too many blocks, its tags are not looked at.
pub fn has_bad_field(s: Shape, block: &Block) -> bool
    ensures { result ≡ has_bad_field s block.now }
{
    let n = block_count(block) as usize;
    if Shape::MAX_TAKEN < n {
        return true;
    }
    !are_tags(s, block, n) || !are_new(block, n)
}
