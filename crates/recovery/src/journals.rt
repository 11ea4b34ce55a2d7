// All journals of a disk: the layout of their commits, the tails of its master, the records of its committed transactions, and what
// recovery makes of them.
ghost use Rattle.std.specs.Prelude.{◌≡◌, map, ◌<◌};
ghost use Rattle.model.specs.Lists.{below};
ghost use Rattle.model.specs.Valid.{in_sequence};
ghost use Rattle.model.specs.Recovery.{tail_past, layout_on, newest_image};
ghost use Rattle.recovery.specs.Recovering.{tail_after, Shaped, OnDisk, IsValid};

use crate::master::disk_layout;
use journal::{Disk, Extent, Records, Runs};
use model::{Block, CommitLayout, Shape, Tail};
use std::array;

// All journals of a disk, read whole: the layout of their commits, the tails of its master, and the records of each core.
#[derive(Drop)]
pub struct Journals {
    pub layout: CommitLayout,
    pub tails: [Tail; 8],
    pub runs: Runs,
}

// The tail of a journal emptied after so many records: one above the number that would come next, at most 4,000,000,001.
fn next_tail(t: Tail, count: u8) -> Tail
    ensures { result ≡ tail_past t count }
{
    let number = t.number.saturating_add(u32::from(count) + 1);
    Tail {
        number: number.min(Shape::MAX_NUMBER + 1),
        position: 0,
    }
}

// Core c's tail after recovery, from the count of its records, all of which were read; the empty one for a core that the disk has not.
fn emptied_tail(s: Shape, tails: [Tail; 8], count: [u8; 8], c: usize) -> Tail
    requires { c < 8 }
    ensures { result ≡ tail_after s tails count c }
{
    if s.cores as usize <= c {
        return Tail {
            number: 0,
            position: 0,
        };
    }
    let t = tails[c];
    next_tail(t, count[c])
}

pub fn emptied_tails(s: Shape, tails: [Tail; 8], count: [u8; 8]) -> [Tail; 8]
    ensures { result ≡ map (tail_after s tails count) (below 8) }
{
    array::from_fn(|c| emptied_tail(s, tails, count, c))
}

// All journals of a disk whose first block is a master, read into a lent array.
pub fn read_disk(disk: Disk, extents: &mut [Extent; 96]) -> Journals
    requires { Shaped disk.shape disk.bytes.now }
    ensures { OnDisk disk.entry.shape disk.entry.bytes.now result.layout result.tails extents.new
        result.runs.start result.runs.count }
{
    let bytes = disk.bytes;
    let layout = disk_layout(bytes);
    let tails = master_block::read_tails(layout::block_at(bytes, 0));
    let runs = disk.read_journals(layout, tails, [disk.shape.journal; 8], extents);
    Journals {
        layout,
        tails,
        runs,
    }
}

// The newest image of block b in the valid set.
pub fn newest_block(valid: Records, b: u8) -> Block
    requires { Shaped valid.disk.shape valid.disk.bytes.now
        × IsValid valid.disk.shape valid.disk.bytes.now valid.extents.now valid.runs.start valid.runs.count }
    ensures { result ≡ newest_image in_sequence (layout_on valid.entry.disk.bytes.now) valid.entry.disk.bytes.now b }
{
    let at = images::newest_image(valid, b);
    let bytes = valid.disk.bytes;
    let image = layout::load_block(bytes, at.block);
    layout::unescape(at.flag, image)
}
