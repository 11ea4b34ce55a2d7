// The master block: the layout of the commits, the disk's shape and the tail of each core's journal, written and read, and a master
// store. No function here is a public entry of the library: each says in a `requires` what its callers ensure.
#![tactic(auto)]

ghost use Rattle.std.specs.Prelude.{◌≡◌, true, map, ℕ, ◌≤◌, ◌<◌, length, get_or};
ghost use Rattle.model.specs.Bytes.{be4, store};
ghost use Rattle.model.specs.Lists.{below};
ghost use Rattle.model.specs.Shape.{checked, clamped};
ghost use Rattle.model.specs.Card.{new_tail};
ghost use Rattle.model.specs.Layout.{master_block, layout_in, tail_in, is_tail, has_master_fields, is_master};
ghost use Rattle.model.specs.Limits.{disk_size};
ghost use Rattle.model.specs.declared.CommitLayout.TheVariants.{Numbers};
ghost use Rattle.layout.specs.Words.{pair_word};
ghost use Rattle.layout.specs.Loops.{every};
ghost use Rattle.master_block.specs.Tails.{master_from, tail_or_none};

use layout::{BlockKind, MARK, get_word, pair_word, write_words};
use model::{Block, CommitLayout, Shape, Tail};
use std::array;

fn tail_word(t: Tail, k: usize) -> u32
    ensures { result ≡ pair_word t.number t.position k }
{
    pair_word(t.number, t.position as u32, k)
}

// Word i of the master.
fn master_word(s: Shape, tails: [Tail; 8], i: usize) -> u32
    ensures { result ≡ get_or (master_from (clamped s) tails) i 0 }
{
    let near = s.clamped();
    if i < 6 {
        let head = [
            MARK,
            BlockKind::Master.number(),
            1,
            near.cores as u32,
            near.blocks as u32,
            near.journal as u32,
        ];
        return head[i];
    }
    let c = (i - 6) / 2;
    if near.cores as usize <= c {
        return 0;
    }
    let t = tails[c];
    tail_word(t, i - 6)
}

// The master of this shape and these tails, for commits with numbers.
fn write_master(block: &mut Block, s: Shape, tails: [Tail; 8])
    ensures { block.new ≡ master_block Numbers (clamped s) (λ (c : ℕ). get_or tails c (new_tail 0 0)) }
{
    write_words(block, |i| master_word(s, tails, i));
}

// The master stored, with these tails.
pub fn store_master(s: Shape, tails: [Tail; 8], disk: &mut [u8])
    requires { length disk.old ≡ disk_size }
    ensures { disk.new ≡ store disk.old 0 (master_block Numbers (clamped s) (λ (c : ℕ). get_or tails c (new_tail 0 0))) }
{
    write_master(disk.first_chunk_mut().unwrap(), s, tails);
}

// The shape that a master gives, if its numbers are within the limits.
pub fn read_shape(block: &Block) -> Option<Shape>
    ensures { result ≡ checked (be4 block.now 12) (be4 block.now 16) (be4 block.now 20) }
{
    let cores = get_word(block, 12);
    let blocks = get_word(block, 16);
    let journal = get_word(block, 20);
    Shape::new(cores, blocks, journal)
}

// The tail of core c is within its limits.
fn is_tail(s: Shape, block: &Block, c: usize) -> bool
    requires { c < 8 }
    ensures { result ≡ is_tail s (tail_in block.now c) }
{
    let number = get_word(block, 24 + 8 * c);
    1 <= number
        && number <= Shape::MAX_NUMBER + 1
        && get_word(block, 24 + 8 * c + 4) < s.journal as u32
}

fn are_tails(s: Shape, block: &Block, cores: usize) -> bool
    requires { cores ≤ 8 }
    ensures { result ≡ every cores (λ (c : ℕ). is_tail s (tail_in block.now c)) }
{
    (0..cores).all(|c| is_tail(s, block, c))
}

// The block has all that a master had before request (d).
fn has_master_fields(block: &Block) -> bool
    ensures { result ≡ has_master_fields block.now }
{
    if get_word(block, 0) != MARK || get_word(block, 4) != BlockKind::Master.number() {
        return false;
    }
    let Some(s) = read_shape(block) else {
        return false;
    };
    are_tails(s, block, s.cores as usize)
}

// The block is a master that RECOVER takes: with it, bytes 8 to 11 hold 0 or 1.
pub fn is_master(block: &Block) -> bool
    ensures { result ≡ is_master block.now }
{
    has_master_fields(block) && get_word(block, 8) <= 1
}

// How the commits of the master's disk name transactions.
// stays: one `match` on a word, that takes every number.
pub fn read_layout(block: &Block) -> CommitLayout
    ensures { result ≡ layout_in block.now }
{
    match get_word(block, 8) {
        0 => CommitLayout::Lists,
        _ => CommitLayout::Numbers,
    }
}

// The tail of core c, and the empty one for a core that the disk has not.
fn read_tail(block: &Block, c: usize) -> Tail
    requires { (is_master block.now ≡ true) × (c < 8) }
    ensures { result ≡ tail_or_none block.now c }
{
    if get_word(block, 12) <= c as u32 {
        return Tail {
            number: 0,
            position: 0,
        };
    }
    let number = get_word(block, 24 + 8 * c);
    let position = get_word(block, 24 + 8 * c + 4);
    Tail {
        number,
        position: position as u8,
    }
}

// The tails of a master: recovery reads them only after it took the block for one, so each position fits a byte.
pub fn read_tails(block: &Block) -> [Tail; 8]
    requires { is_master block.now ≡ true }
    ensures { result ≡ map (tail_or_none block.now) (below 8) }
{
    array::from_fn(|c| read_tail(block, c))
}
