// Memory afterwards: the block's image, loaded from home where the block had no holder, with four bytes replaced.
ghost use Rattle.std.specs.Prelude.{◌≡◌, ◌+◌, ◌*◌, ◌≤◌, length};
ghost use Rattle.model.specs.Bytes.{replaced};
ghost use Rattle.model.specs.Limits.{block_size};
ghost use Rattle.transaction.specs.Writing.{InImage, loaded_by};

use model::{Rule, Shape};
use rules::loads_image;

// Block b's image loaded where the rule asks for it.
fn load_image(s: Shape, rule: Rule, b: u8, disk: &[u8], memory: &mut [u8])
    requires { InImage disk.now memory.old b 0 }
    ensures { memory.new ≡ loaded_by rule disk.now memory.old b }
{
    if !loads_image(rule) {
        return;
    }
    let to = Shape::BLOCK_SIZE * b as usize;
    let to_end = to + Shape::BLOCK_SIZE;
    let from = Shape::BLOCK_SIZE * s.home_block(b);
    let from_end = from + Shape::BLOCK_SIZE;
    memory[to..to_end].copy_from_slice(&disk[from..from_end]);
}

// Four bytes replaced.
fn put_bytes(memory: &mut [u8], at: usize, bytes: [u8; 4])
    requires { at + 4 ≤ length memory.old }
    ensures { memory.new ≡ replaced at 4 memory.old bytes }
{
    memory[at] = bytes[0];
    memory[at + 1] = bytes[1];
    memory[at + 2] = bytes[2];
    memory[at + 3] = bytes[3];
}

// The bytes at the offset of the block's image.
pub fn write_memory(
    s: Shape,
    rule: Rule,
    b: u8,
    o: u8,
    bytes: [u8; 4],
    disk: &[u8],
    memory: &mut [u8],
)
    requires { InImage disk.now memory.old b o }
    ensures { memory.new ≡ replaced (block_size * b + o) 4 (loaded_by rule disk.now memory.old b) bytes }
{
    load_image(s, rule, b, disk, memory);
    let at = Shape::BLOCK_SIZE * b as usize + o as usize;
    put_bytes(memory, at, bytes);
}
