// A lent disk with its shape: where a block of a journal lies, and that block.
ghost use Rattle.std.specs.Prelude.{◌≡◌, ◌%◌, ◌<◌, length};
ghost use Rattle.model.proofs.Limits.{InRange};
ghost use Rattle.model.specs.Shape.{journal_block};
ghost use Rattle.model.specs.Journal.{journal_at};
ghost use Rattle.model.specs.Limits.{disk_size};

use model::{Block, DiskBytes, Shape, around};

// A whole disk, and its shape, which is within its limits.
#[derive(Clone, Copy)]
pub struct Disk<'a> {
    pub shape: Shape,
    pub bytes: &'a DiskBytes,
    pub ghost in_range: { InRange shape },
}

// The disk block at a position of core c's journal: `Shape::journal_block` where the shape is known to be within its limits, so that it
// need not be brought there at every step.
// stays: `Shape::journal_block` is total on every shape, as its promise for every card value asks.
pub fn disk_block(s: Shape, c: u8, p: usize) -> usize
    requires { InRange s × (c < s.cores) }
    ensures { (result ≡ journal_block s c p) × (result < 257) }
{
    let j = s.journal as usize;
    1 + s.blocks as usize + c as usize * j + around(p, j)
}

impl<'a> Disk<'a> {
    // A slice that is as long as a disk.
    pub fn new(shape: Shape, bytes: &'a [u8]) -> Self
        requires { InRange shape × (length bytes.now ≡ disk_size) }
        ensures { (result.shape ≡ shape) × (result.bytes.now ≡ bytes.entry.now) }
    {
        let bytes = bytes.try_into().unwrap();
        Disk { shape, bytes }
    }

    // A position that counts round modulo J.
    pub fn position(self, p: usize) -> u8
        ensures { result ≡ p % self.entry.shape.journal }
    {
        around(p, self.shape.journal as usize) as u8
    }

    // The block at a position of core c's journal, lent.
    pub fn block(self, c: u8, p: usize) -> &'a Block
        requires { c < self.shape.cores }
        ensures { result.now ≡ journal_at self.entry.shape self.entry.bytes.now c p }
    {
        let bytes = self.bytes;
        let (blocks, _) = bytes.as_chunks::<{ Shape::BLOCK_SIZE }>();
        &blocks[disk_block(self.shape, c, p)]
    }
}
