// The blocks that a transaction took.
ghost use Rattle.std.specs.Prelude.{◌≡◌, ◌≤◌, ◌<◌};
ghost use Rattle.model.specs.Journal.{blocks_of, took};
ghost use Rattle.model.specs.Limits.{max_taken};
ghost use Rattle.layout.specs.Narrow.{BlocksBelow};
ghost use Rattle.journal.specs.Records.{SizedCommitted, RangeTested, descriptor_blocks, place_among};

use crate::disk::Disk;
use model::{Block, Committed};

// The place of block b among the first n of a descriptor, if it is one of them.
fn place_in(block: &Block, n: usize, b: u8) -> Option<usize>
    requires { (n ≤ max_taken) × BlocksBelow 256 block.now n }
    ensures { result ≡ place_among b (descriptor_blocks block.now n) }
{
    (0..n).position(|i| b == layout::block_byte(block, i))
}

impl<'a> Disk<'a> {
    // The place of block b among those that a transaction took, if it is one of them.
    pub fn place_of(self, e: Committed, b: u8) -> Option<usize>
        requires { SizedCommitted self.shape e × RangeTested self.shape self.bytes.now e }
        ensures { result ≡ place_among b (blocks_of self.entry.shape self.entry.bytes.now e) }
    {
        let block = self.block(e.core, e.position as usize);
        place_in(block, e.count as usize, b)
    }

    // Whether a transaction took block b. No public entry.
    pub fn took_block(self, e: Committed, b: u8) -> bool
        requires { SizedCommitted self.shape e × RangeTested self.shape self.bytes.now e }
        ensures { result ≡ took self.entry.shape self.entry.bytes.now b e }
    {
        self.place_of(e, b).is_some()
    }
}
