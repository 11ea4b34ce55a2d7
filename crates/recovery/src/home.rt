// How many home blocks a card counts.
ghost use Rattle.std.specs.Prelude.{◌≡◌, cond, length};
ghost use Rattle.model.specs.Bytes.{Bytes, block_at};
ghost use Rattle.model.specs.Layout.{is_master};
ghost use Rattle.model.specs.Recovery.{shape_on};
ghost use Rattle.model.specs.Printing.{home_count};
ghost use Rattle.model.specs.Limits.{disk_size};
ghost use Rattle.cells.specs.Cells.{world_in};

use crate::master::disk_shape;
use cells::State;
use model::{Phase, Shape};

// The home blocks that the disk's master counts, none where it is unfit.
fn master_count(disk: &[u8]) -> u8
    requires { length disk.now ≡ disk_size }
    ensures { result ≡ cond (is_master (block_at disk.now 0)) (shape_on disk.now).blocks 0 }
{
    if !master_block::is_master(layout::block_at(disk, 0)) {
        return 0;
    }
    let s = disk_shape(disk);
    s.blocks
}

// A blank card has none, one that is down as many as its disk says.
pub fn home_count(w: &State, disk: &[u8]) -> u8
    requires { length disk.now ≡ disk_size }
    ensures { (m : Bytes) → result ≡ home_count (world_in w.now disk.now m) }
{
    let p = cells::phase_of(w);
    // stays: each phase has its own count.
    match p {
        Phase::Blank => 0,
        Phase::Up => {
            let s = cells::shape_of(w);
            s.blocks
        }
        Phase::Down => master_count(disk),
    }
}
