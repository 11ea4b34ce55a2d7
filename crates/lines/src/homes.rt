// The home blocks that have a line: those that are not all zero.
ghost use Rattle.std.specs.Prelude.{◌≤◌, ◌≡◌, map, take};
ghost use Rattle.model.specs.Lists.{below, select};
ghost use Rattle.model.specs.Bytes.{Bytes, block_at};
ghost use Rattle.model.specs.Shape.{home_block};
ghost use Rattle.model.specs.Printing.{home_lines};
ghost use Rattle.cells.specs.Cells.{world_in};
ghost use Rattle.lines.specs.Lines.{home_line, is_printed};

use model::Shape;

// Whether home block b has a line.
fn is_printed(b: u8, disk: &[u8; Shape::DISK_SIZE]) -> bool
    requires { b ≤ 254 }
    ensures { result ≡ is_printed disk.now b }
{
    let from = Shape::BLOCK_SIZE * (b as usize) + Shape::BLOCK_SIZE;
    let to = from + Shape::BLOCK_SIZE;
    disk[from..to].iter().any(|x| *x != 0)
}

// Those below a count, ascending, put at the start of the buffer: how many there are.
fn printed_below(count: u8, disk: &[u8; Shape::DISK_SIZE], numbers: &mut [u8; 256]) -> usize
    ensures { (take result numbers.new ≡ select (is_printed disk.now) (below count)) × (result ≤ 255) }
{
    let mut n: usize = 0;
    for b in 0..count {
        if is_printed(b, disk) {
            numbers[n] = b;
            n += 1;
        }
    }
    n
}

// The numbers of the home blocks that have a line, put at the start of the buffer: how many there are.
// stays: what may not change: the clause says what the lent buffer itself holds then.
pub fn home_blocks(w: &[u64; 423], disk: &[u8; Shape::DISK_SIZE], numbers: &mut [u8; 256]) -> usize
    ensures { ((m : Bytes) → map (home_line disk.now) (take result numbers.new) ≡ home_lines (world_in w.now disk.now m))
        × (result ≤ 255) }
{
    let count = recovery::home_count(w, disk);
    printed_below(count, disk, numbers)
}

// The first eight bytes of home block b.
pub fn first_bytes(b: u8, disk: &[u8; Shape::DISK_SIZE]) -> &[u8; 8]
    ensures { result.now ≡ take 8 (block_at disk.now (home_block b)) }
{
    let from = Shape::BLOCK_SIZE * (b as usize) + Shape::BLOCK_SIZE;
    let to = from + 8;
    disk[from..to].try_into().unwrap()
}
