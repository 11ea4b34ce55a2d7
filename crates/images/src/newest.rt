// Images in the journal: the newest of a block in a set, the next block that a set holds, and who shares a block.
ghost use Rattle.std.specs.Prelude.{◌≡◌, List, ℕ, ◌≤◌, ◌<◌, get_or};
ghost use Rattle.model.specs.Lists.{any};
ghost use Rattle.model.specs.Journal.{blocks_of};
ghost use Rattle.model.specs.Valid.{newest};
ghost use Rattle.model.specs.Checkpoint.{share};
ghost use Rattle.model.specs.Limits.{max_taken};
ghost use Rattle.layout.specs.Narrow.{BlocksBelow};
ghost use Rattle.layout.specs.Loops.{some};
ghost use Rattle.journal.specs.declared.extents.Extent.{Extent};
ghost use Rattle.journal.specs.Records.{SamePlaces, records_in, SizedCommitted, RangeTested, ExtentTested, descriptor_blocks};
ghost use Rattle.images.specs.Newest.{stepped, image_at, found_image, later_of, later_in, lower_of, lower_at, lower_by, lower_in, held_from, shares_below, asked_in};

use journal::{Disk, Extent, Records, disk_block};
use model::{Block, Committed};

// Where an image stands: its disk block and its flag, with the stamp of the transaction that has it.
#[derive(Clone, Copy)]
pub struct Image {
    pub stamp: u64,
    pub block: usize,
    // stays: the flag is a word of the descriptor on disk.
    pub flag: u32,
}

// The image of the i-th block of a transaction.
pub fn image_at(disk: Disk, e: Committed, i: usize) -> Image
    requires { SizedCommitted disk.shape e × (i < e.count) }
    ensures { (result ≡ image_at disk.entry.shape disk.entry.bytes.now e i) × (result.block < 257) }
{
    let at = e.position as usize;
    Image {
        stamp: e.stamp,
        block: disk_block(disk.shape, e.core, at + (i + 1)),
        flag: layout::tag_flag(disk.block(e.core, at), i),
    }
}

// The later of two images of block b: the best so far, and the one that a transaction has. Of equal stamps the last wins.
fn later_of(disk: Disk, e: Committed, b: u8, best: Image) -> Image
    requires { SizedCommitted disk.shape e × RangeTested disk.shape disk.bytes.now e × (best.block < 257) }
    ensures { (result ≡ later_of disk.entry.shape disk.entry.bytes.now b e best) × (result.block < 257) }
{
    let Some(i) = disk.place_of(e, b) else {
        return best;
    };
    if e.stamp < best.stamp {
        return best;
    }
    image_at(disk, e, i)
}

// The newest image of block b in core c's records, and the one known.
fn newest_of(set: &Records, c: u8, b: u8, known: Image) -> Image
    requires { (c < set.now.disk.shape.cores) × (known.block < 257) }
    ensures { (result ≡ stepped (later_in set.now.disk.shape set.now.disk.bytes.now b set.now.extents.now c
        (get_or set.now.runs.start c 0)) known (get_or set.now.runs.count c 0))
        × (result.block < 257) }
{
    let i = c as usize;
    let first = set.runs.start[i] as usize;
    let mut best = known;
    for j in 0..set.runs.count[i] {
        let e = set.extents[first + j as usize].committed(c, 0);
        best = later_of(set.disk, e, b, best);
    }
    best
}

// The newest image of block b in a set, the one at home where no transaction of it took the block. No public entry.
pub fn newest_image(set: Records, b: u8) -> Image
    ensures { ((ks : List ℕ) → result ≡ found_image set.entry.disk.shape set.entry.disk.bytes.now b
        (newest set.entry.disk.shape set.entry.disk.bytes.now b None
        (records_in set.entry.disk.shape set.entry.extents.now ks set.entry.runs.start set.entry.runs.count)))
        × (result.block < 257) }
{
    let mut best = Image {
        stamp: 0,
        block: 1 + b as usize,
        flag: 0,
    };
    for c in 0..set.disk.shape.cores {
        best = newest_of(&set, c, b, best);
    }
    best
}

// Of a block and the lowest so far the lower; one below `from` does not count.
fn lower(x: u8, from: u8, best: u8) -> u8
    ensures { result ≡ lower_of from x best }
{
    if x < from {
        return best;
    }
    x.min(best)
}

// The lowest at or above `from` of the first n blocks of a descriptor, and the one known.
fn lowest_in(block: &Block, n: usize, from: u8, known: u8) -> u8
    requires { (n ≤ max_taken) × BlocksBelow 256 block.now n }
    ensures { result ≡ stepped (lower_at block.now from) known n }
{
    let mut best = known;
    for i in 0..n {
        best = lower(layout::block_byte(block, i), from, best);
    }
    best
}

// The same of core c's record with this extent.
fn lowest_at(disk: Disk, c: u8, x: Extent, from: u8, known: u8) -> u8
    requires { (c < disk.shape.cores) × ExtentTested disk.shape disk.bytes.now c x }
    ensures { result ≡ lower_by disk.entry.shape disk.entry.bytes.now from c x known }
{
    let block = disk.block(c, x.position as usize);
    lowest_in(block, x.count as usize, from, known)
}

// The same of core c's records.
fn lowest_of(set: &Records, c: u8, from: u8, known: u8) -> u8
    requires { c < set.now.disk.shape.cores }
    ensures { result ≡ stepped (lower_in set.now.disk.shape set.now.disk.bytes.now from set.now.extents.now c
        (get_or set.now.runs.start c 0)) known (get_or set.now.runs.count c 0) }
{
    let i = c as usize;
    let first = set.runs.start[i] as usize;
    let mut best = known;
    for j in 0..set.runs.count[i] {
        best = lowest_at(set.disk, c, set.extents[first + j as usize], from, best);
    }
    best
}

// The lowest block at or above `from` that the set holds, if it holds one; numbers and stamps take no part. No public entry.
pub fn next_held(set: Records, from: u8) -> Option<u8>
    ensures { (zs : List Extent) → SamePlaces set.entry.extents.now zs → (ks : List ℕ)
        → result ≡ held_from set.entry.disk.shape set.entry.disk.bytes.now
        (records_in set.entry.disk.shape zs ks set.entry.runs.start set.entry.runs.count) from }
{
    let mut best = set.disk.shape.blocks;
    for c in 0..set.disk.shape.cores {
        best = lowest_of(&set, c, from, best);
    }
    if best < set.disk.shape.blocks {
        Some(best)
    } else {
        None
    }
}

// Whether a transaction took one of the first n blocks of a descriptor.
fn share_in(disk: Disk, block: &Block, n: usize, f: Committed) -> bool
    requires { (n ≤ max_taken) × BlocksBelow 256 block.now n
        × SizedCommitted disk.shape f × RangeTested disk.shape disk.bytes.now f }
    ensures { result ≡ share (descriptor_blocks block.now n) (blocks_of disk.entry.shape disk.entry.bytes.now f) }
{
    (0..n).any(|i| disk.took_block(f, layout::block_byte(block, i)))
}

// Whether transaction f has a lower stamp than e and shares a block with it.
fn record_shares(disk: Disk, f: Committed, e: Committed) -> bool
    requires { SizedCommitted disk.shape f × RangeTested disk.shape disk.bytes.now f
        × SizedCommitted disk.shape e × RangeTested disk.shape disk.bytes.now e }
    ensures { result ≡ shares_below disk.entry.shape disk.entry.bytes.now e f }
{
    if e.stamp <= f.stamp {
        return false;
    }
    let block = disk.block(e.core, e.position as usize);
    share_in(disk, block, e.count as usize, f)
}

// Whether core c's j-th record does.
fn nth_shares(set: &Records, c: u8, j: u8, e: Committed) -> bool
    requires { (c < set.now.disk.shape.cores) × (j < get_or set.now.runs.count c 0)
        × SizedCommitted set.now.disk.shape e × RangeTested set.now.disk.shape set.now.disk.bytes.now e }
    ensures { result ≡ asked_in (shares_below set.now.disk.shape set.now.disk.bytes.now e) set.now.extents.now c
        (get_or set.now.runs.start c 0) j }
{
    let at = set.runs.start[c as usize] as usize + j as usize;
    record_shares(set.disk, set.extents[at].committed(c, 0), e)
}

// Whether one of core c's records does.
fn core_shares(set: &Records, c: u8, e: Committed) -> bool
    requires { (c < set.now.disk.shape.cores) × SizedCommitted set.now.disk.shape e × RangeTested set.now.disk.shape set.now.disk.bytes.now e }
    ensures { result ≡ some (get_or set.now.runs.count c 0)
        (asked_in (shares_below set.now.disk.shape set.now.disk.bytes.now e) set.now.extents.now c (get_or set.now.runs.start c 0)) }
{
    (0..set.runs.count[c as usize]).any(|j| nth_shares(set, c, j, e))
}

// Whether a transaction of the set has a lower stamp than e and shares a block with it. No public entry.
pub fn shares_lower(set: Records, e: Committed) -> bool
    requires { SizedCommitted set.disk.shape e × RangeTested set.disk.shape set.disk.bytes.now e }
    ensures { (ks : List ℕ) → result ≡ any (shares_below set.entry.disk.shape set.entry.disk.bytes.now e)
        (records_in set.entry.disk.shape set.entry.extents.now ks set.entry.runs.start set.entry.runs.count) }
{
    (0..set.disk.shape.cores).any(|c| core_shares(&set, c, e))
}
