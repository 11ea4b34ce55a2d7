// The first block of a disk: whether it is a master, the shape that it gives, and the layout of the disk's commits.
ghost use Rattle.std.specs.Prelude.{◌≡◌, true, cond, not, length};
ghost use Rattle.model.specs.Bytes.{block_at};
ghost use Rattle.model.specs.Layout.{is_master};
ghost use Rattle.model.specs.Refusal.{answer_of};
ghost use Rattle.model.specs.Recovery.{layout_on};
ghost use Rattle.model.specs.Limits.{disk_size};
ghost use Rattle.recovery.specs.Recovering.{Shaped};

use model::{CommitLayout, Refusal, Shape};

// Refusal 8, a first block that is no master.
pub fn check_master(disk: &[u8]) -> Result<(), Refusal>
    requires { length disk.now ≡ disk_size }
    ensures { answer_of result ≡ cond (not (is_master (block_at disk.now 0))) 8 0 }
{
    if master_block::is_master(layout::block_at(disk, 0)) {
        return Ok(());
    }
    Err(Refusal::UnfitMaster)
}

// The shape that the disk's master gives: one that was taken for a master has it within the limits.
pub fn disk_shape(disk: &[u8]) -> Shape
    requires { (length disk.now ≡ disk_size) × (is_master (block_at disk.now 0) ≡ true) }
    ensures { Shaped result disk.now }
{
    let Some(s) = master_block::read_shape(layout::block_at(disk, 0)) else {
        return Shape {
            cores: 1,
            blocks: 1,
            journal: 4,
        };
    };
    s
}

// How the disk's commits name transactions, as its master says.
pub fn disk_layout(disk: &[u8]) -> CommitLayout
    requires { length disk.now ≡ disk_size }
    ensures { result ≡ layout_on disk.now }
{
    master_block::read_layout(layout::block_at(disk, 0))
}
