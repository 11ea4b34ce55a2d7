// Reading a block of a card that is up, without copying: where its bytes stand, and the part of the slice itself.
#![tactic(auto)]

ghost use Rattle.std.specs.Prelude.{◌≡◌, length};
ghost use Rattle.model.specs.Refusal.{answer_of};
ghost use Rattle.model.specs.Reading.{read_number, read_block};
ghost use Rattle.cells.specs.Cells.{world_in};
ghost use Rattle.reading.specs.Part.{slice_number, answered, part_of};

use cells::{State, check_block, check_up, is_held, shape_of};
use model::{Refusal, Shape};

// The lent slice in which the bytes of a block stand.
#[derive(Clone, Copy, Debug, PartialEq, Eq)]
pub enum Slice {
    Disk = 1,
    Memory = 2,
}

// Its number where a part is told by numbers alone.
impl From<Slice> for u32 {
    ghost from_gives = { λ s n. n ≡ slice_number s };

    fn from(s: Slice) -> u32 {
        s as u32
    }
}

// Where the bytes of a block stand: in which slice, from where on, and how many.
#[derive(Clone, Copy)]
pub struct BlockPart {
    pub slice: Slice,
    pub from: usize,
    pub length: usize,
}

// What reading block b is refused with.
pub fn check_read(w: &State, b: u16, disk: &[u8], memory: &[u8]) -> Result<(), Refusal>
    ensures { answer_of result ≡ read_number b (world_in w.now disk.now memory.now) }
{
    check_up(w, disk, memory)?;
    check_block(w, b)
}

// Where the 128 bytes of block b stand: in memory while a transaction holds it, otherwise on the disk.
pub fn read_part(w: &State, b: u16, disk: &[u8], memory: &[u8]) -> Result<BlockPart, Refusal>
    ensures { answered result ≡ part_of b (world_in w.now disk.now memory.now) }
{
    check_read(w, b, disk, memory)?;
    let block = b as u8;
    if is_held(w, block) {
        return Ok(BlockPart {
            slice: Slice::Memory,
            from: Shape::BLOCK_SIZE * block as usize,
            length: Shape::BLOCK_SIZE,
        });
    }
    let s = shape_of(w);
    Ok(BlockPart {
        slice: Slice::Disk,
        from: Shape::BLOCK_SIZE * s.home_block(block),
        length: Shape::BLOCK_SIZE,
    })
}

// Those bytes, as a part of the slice. A refused reading hands back a part of no bytes.
pub fn read_block<'a>(w: &State, b: u16, disk: &'a [u8], memory: &'a [u8]) -> &'a [u8]
    ensures { result.now ≡ read_block b (world_in w.now disk.now memory.now) }
{
    let Ok(p) = read_part(w, b, disk, memory) else {
        return &[];
    };
    let to = p.from + p.length;
    match p.slice {
        Slice::Disk => &disk[p.from..to],
        Slice::Memory => &memory[p.from..to],
    }
}
