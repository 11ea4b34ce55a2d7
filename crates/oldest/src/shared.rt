// Unretired transactions of lower stamp that share a block with the one to be stored home and retired.
ghost use Rattle.std.specs.Prelude.{◌≡◌, ◌+◌, ◌≤◌, ◌<◌, eqb, get_or};
ghost use Rattle.model.specs.Lists.{any};
ghost use Rattle.model.specs.Card.{taken};
ghost use Rattle.model.specs.Journal.{blocks_of};
ghost use Rattle.model.specs.Checkpoint.{share};
ghost use Rattle.layout.specs.Loops.{some};
ghost use Rattle.cells.specs.Cells.{transaction_size, transaction_in, card_in};
ghost use Rattle.oldest.specs.Oldest.{IsRead, lower_closed, closed_lower, lower_shares};

use cells::{BLOCKS, STAMP, State, block_count, byte_in, closed_place, is_live};
use journal::{Disk, Records};
use model::Committed;

// The block that a transaction took as its i-th. It was read from a record, so its range has been tested.
pub fn block_at(disk: Disk, e: Committed, i: usize) -> u8
    requires { IsRead disk.shape disk.bytes.now e × (i < e.count) }
    ensures { (result ≡ get_or (blocks_of disk.entry.shape disk.entry.bytes.now e) i 0) × (result < 64) }
{
    let block = disk.block(e.core, e.position as usize);
    layout::block_byte(block, i)
}

// Whether the transaction at a place took block b.
fn takes_block(w: &State, at: usize, b: u8) -> bool
    requires { at + transaction_size ≤ 423 }
    ensures { result ≡ any (eqb b) (taken (transaction_in w.now at)) }
{
    (0..block_count(w, at)).any(|i| b == byte_in(w, at + BLOCKS + i))
}

// Whether it took a block that e took.
fn shares_closed(w: &State, at: usize, disk: Disk, e: Committed) -> bool
    requires { (at + transaction_size ≤ 423) × IsRead disk.shape disk.bytes.now e }
    ensures { result ≡ share (blocks_of disk.entry.shape disk.entry.bytes.now e) (taken (transaction_in w.now at)) }
{
    (0..e.count as usize).any(|i| takes_block(w, at, block_at(disk, e, i)))
}

// Whether the closed transaction at a place has a lower stamp and shares a block.
fn lower_closed(w: &State, at: usize, disk: Disk, e: Committed) -> bool
    requires { (at + transaction_size ≤ 423) × IsRead disk.shape disk.bytes.now e }
    ensures { result ≡ lower_closed disk.entry.shape disk.entry.bytes.now e (transaction_in w.now at) }
{
    if !is_live(w, at) {
        return false;
    }
    if e.stamp <= w[at + STAMP] {
        return false;
    }
    shares_closed(w, at, disk, e)
}

// Whether core c's closed one does.
fn closed_lower(w: &State, c: u8, disk: Disk, e: Committed) -> bool
    requires { (c < disk.shape.cores) × IsRead disk.shape disk.bytes.now e }
    ensures { result ≡ closed_lower (card_in w.now) disk.entry.shape disk.entry.bytes.now e c }
{
    lower_closed(w, closed_place(c), disk, e)
}

// Whether any closed one does.
fn any_closed(w: &State, disk: Disk, e: Committed) -> bool
    requires { IsRead disk.shape disk.bytes.now e }
    ensures { result ≡ some disk.entry.shape.cores (closed_lower (card_in w.now) disk.entry.shape disk.entry.bytes.now e) }
{
    (0..disk.shape.cores).any(|c| closed_lower(w, c, disk, e))
}

// Whether an unretired transaction of lower stamp, committed or closed, shares a block. The records are the committed ones.
pub fn shares_lower(w: &State, all: Records, e: Committed) -> bool
    requires { IsRead all.disk.shape all.disk.bytes.now e }
    ensures { result ≡ lower_shares (card_in w.now) all.entry.disk.shape all.entry.disk.bytes.now all.entry.extents.now
        all.entry.runs.start all.entry.runs.count e }
{
    if images::shares_lower(all, e) {
        return true;
    }
    any_closed(w, all.disk, e)
}
