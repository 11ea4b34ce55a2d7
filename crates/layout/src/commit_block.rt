// The commit of a record: its stamp and what it names, one number for each core; on an older disk a list of names, which is only read.
ghost use Rattle.std.specs.Prelude.{◌≡◌, ◌&&◌, ◌∷◌, map, ℕ, ◌≤◌, ◌<◌, min, get_or};
ghost use Rattle.model.specs.Lists.{below, all};
ghost use Rattle.model.specs.Card.{new_name};
ghost use Rattle.model.specs.Layout.{commit_words, commit_block, pair_at, is_listable, is_commit, stamp_in, name_count, number_named};
ghost use Rattle.model.specs.Layout.{names_in, few_names, cores_named};
ghost use Rattle.model.specs.Limits.{max_cores, max_names};
ghost use Rattle.model.specs.declared.CommitLayout.TheVariants.{Lists};
ghost use Rattle.layout.specs.Loops.{every, some};
ghost use Rattle.layout.specs.Named.{number_fits, is_of_core, names_core};

use crate::words::{BlockKind, MARK, get_word, has_head};
use crate::writing::write_words;
use model::{Block, CommitLayout, Shape};

// Word i of a commit.
fn commit_word(number: u32, stamp: u64, numbers: [u32; 8], i: usize) -> u32
    ensures { result ≡ get_or (commit_words number stamp (0 ∷ map (λ (c : ℕ). get_or numbers c 0) (below max_cores))) i 0 }
{
    if i < 6 {
        let high = (stamp / 4294967296) as u32;
        let low = (stamp % 4294967296) as u32;
        let head = [MARK, BlockKind::Commit.number(), number, high, low, 0];
        return head[i];
    }
    if 14 <= i {
        return 0;
    }
    numbers[i - 6]
}

// The commit of a transaction that names these numbers, the highest of each core.
pub fn write_commit(block: &mut Block, number: u32, stamp: u64, numbers: [u32; 8])
    ensures { block.new ≡ commit_block number stamp (λ (c : ℕ). get_or numbers c 0) }
{
    write_words(block, |i| commit_word(number, stamp, numbers, i));
}

// The stamp of a commit.
pub fn stamp_in(block: &Block) -> u64
    ensures { result ≡ stamp_in block.now }
{
    let high = get_word(block, 12) as u64;
    let low = get_word(block, 16) as u64;
    high * 4294967296 + low
}

// The number that the commit has for core c.
pub fn number_named(block: &Block, c: usize) -> u32
    requires { c < 8 }
    ensures { result ≡ number_named block.now c }
{
    get_word(block, 24 + 4 * c)
}

// The number for core c is in range: none stands for a core that the disk has not.
fn number_fits(s: Shape, block: &Block, c: usize) -> bool
    requires { c < 8 }
    ensures { result ≡ number_fits s block.now c }
{
    c < s.cores as usize || number_named(block, c) == 0
}

// The numbers for all cores are in range.
fn numbers_fit(s: Shape, block: &Block) -> bool
    ensures { result ≡ every 8 (number_fits s block.now) }
{
    (0..8).all(|c| number_fits(s, block, c))
}

// How many names the commit says that it lists.
fn name_count(block: &Block) -> u32
    ensures { result ≡ name_count block.now }
{
    get_word(block, 20)
}

// How many names of its list are read.
pub fn names_listed(block: &Block) -> usize
    ensures { result ≡ min (name_count block.now) max_names }
{
    (name_count(block) as usize).min(Shape::MAX_NAMES)
}

// The core of the i-th name.
pub fn name_core(block: &Block, i: usize) -> u32
    requires { i < max_names }
    ensures { result ≡ (pair_at new_name block.now 24 i).core }
{
    get_word(block, 24 + 8 * i)
}

// The number of the i-th name.
pub fn name_number(block: &Block, i: usize) -> u32
    requires { i < max_names }
    ensures { result ≡ (pair_at new_name block.now 24 i).number }
{
    get_word(block, 24 + 8 * i + 4)
}

// The i-th name has a core that the disk has, and a number of 1 or more.
fn is_listable(s: Shape, block: &Block, i: usize) -> bool
    requires { i < max_names }
    ensures { result ≡ is_listable s (pair_at new_name block.now 24 i) }
{
    name_core(block, i) < s.cores as u32 && 1 <= name_number(block, i)
}

fn are_listable(s: Shape, block: &Block, n: usize) -> bool
    requires { n ≤ max_names }
    ensures { result ≡ every n (λ (i : ℕ). is_listable s (pair_at new_name block.now 24 i)) }
{
    (0..n).all(|i| is_listable(s, block, i))
}

// The list has no more names than a list may have, each of them in range.
fn list_fits(s: Shape, block: &Block) -> bool
    ensures { result ≡ (few_names Lists block.now && all (is_listable s) (names_in Lists block.now)) }
{
    let n = name_count(block) as usize;
    n <= Shape::MAX_NAMES && are_listable(s, block, n)
}

// What the commit names is in range.
fn names_fit(y: CommitLayout, s: Shape, block: &Block) -> bool
    ensures { result ≡ (few_names y block.now && all (is_listable s) (names_in y block.now)) }
{
    // stays: a closure would be chosen by the same `match`.
    match y {
        CommitLayout::Lists => list_fits(s, block),
        CommitLayout::Numbers => numbers_fit(s, block),
    }
}

// The block is a commit with this number.
pub fn is_commit(y: CommitLayout, s: Shape, number: u32, block: &Block) -> bool
    ensures { result ≡ is_commit y s number block.now }
{
    has_head(block, BlockKind::Commit.number(), number)
        && 1 <= stamp_in(block)
        && names_fit(y, s, block)
}

// Core c is that of one of the first n names.
fn is_listed(block: &Block, n: usize, c: u32) -> bool
    requires { n ≤ max_names }
    ensures { result ≡ some n (is_of_core block.now c) }
{
    (0..n).any(|i| name_core(block, i) == c)
}

// The commit names a transaction of core c.
fn names_core(y: CommitLayout, block: &Block, c: usize) -> bool
    requires { c < 8 }
    ensures { result ≡ names_core (names_in y block.now) c }
{
    // stays: a closure would be chosen by the same `match`.
    match y {
        CommitLayout::Lists => is_listed(block, names_listed(block), c as u32),
        CommitLayout::Numbers => 1 <= number_named(block, c),
    }
}

// How many cores the commit names.
pub fn cores_named(y: CommitLayout, block: &Block) -> u8
    ensures { result ≡ cores_named (names_in y block.now) }
{
    (0..8).filter(|c| names_core(y, block, *c)).count() as u8
}
