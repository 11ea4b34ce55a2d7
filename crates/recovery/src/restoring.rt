// RECOVER: one store of recovery. A block held in the valid set gets its newest image, from the lowest block to the
// highest; then one master store empties all journals, and the card is up.
ghost use Rattle.std.specs.Prelude.{◌≡◌, true, List, [], ◌∷◌, ℕ, ◌<◌, length};
ghost use Rattle.model.specs.Bytes.{block_at};
ghost use Rattle.model.specs.Layout.{is_master};
ghost use Rattle.model.specs.Command.{refusal};
ghost use Rattle.model.specs.Refusal.{answer_of};
ghost use Rattle.model.specs.Valid.{in_sequence};
ghost use Rattle.model.specs.Recovery.{layout_on, newest_image, recover_conditions, recover_step, recovered, recover};
ghost use Rattle.model.specs.Limits.{disk_size};
ghost use Rattle.model.specs.declared.CommitLayout.TheVariants.{Numbers};
ghost use Rattle.cells.specs.Answer.{Meets, Stores};
ghost use Rattle.cells.specs.Cells.{world_in};
ghost use Rattle.recovery.specs.Recovering.{Shaped, Emptying, IsValid};

use crate::journals::{emptied_tails, newest_block, read_disk};
use crate::master::{check_master, disk_shape};
use cells::{RECOVERED, State, byte_in, check_phase, come_up};
use journal::{Disk, Extent, Records, Runs};
use layout::store_home;
use master_block::store_master;
use model::{Block, Refusal, Shape, Tail};

// The first block is looked at once the slices have their lengths and the card is down.
fn check_recover(w: &State, disk: &[u8], memory: &[u8]) -> Result<(), Refusal>
    ensures { answer_of result ≡ refusal (recover_conditions (world_in w.now disk.now memory.now)) }
{
    check_phase(
        w,
        disk,
        memory,
        Err(Refusal::CardBlank),
        Err(Refusal::CardUp),
        Ok(()),
    )?;
    check_master(disk)
}

// The last store of recovery: one master with all journals empty, for commits with numbers. The card is up.
fn bring_up(w: &mut State, s: Shape, before: [Tail; 8], count: [u8; 8], disk: &mut [u8])
    requires { Shaped s disk.old × Emptying s disk.old before count }
    ensures { Stores (recover_step in_sequence (layout_on disk.old) Numbers [])
        w.old w.new disk.old disk.new }
{
    let tails = emptied_tails(s, before, count);
    store_master(s, tails, disk);
    come_up(w, s, tails);
}

// A home store of recovery, of the lowest block left, with its newest image; recovery has then passed it.
fn restore_block(w: &mut State, s: Shape, disk: &mut [u8], b: u8, image: Block)
    requires { Shaped s disk.old × (b < s.blocks)
        × (image ≡ newest_image in_sequence (layout_on disk.old) disk.old b) }
    ensures { (bs : List ℕ) → Stores (recover_step in_sequence (layout_on disk.old) Numbers (b ∷ bs))
        w.old w.new disk.old disk.new }
{
    store_home(s, b, image, disk);
    w[RECOVERED] = b as u64 + 1;
}

// The next store of recovery: the lowest block left of the valid set, or with none the master.
fn next_store(
    w: &mut State,
    s: Shape,
    disk: &mut [u8],
    extents: &[Extent; 96],
    runs: Runs,
    tails: [Tail; 8],
    count: [u8; 8],
)
    requires { Shaped s disk.old
        × IsValid s disk.old extents.now runs.start runs.count × Emptying s disk.old tails count }
    ensures { Stores (recovered in_sequence) w.old w.new disk.old disk.new }
{
    let from = byte_in(w, RECOVERED);
    let whole = Disk::new(s, disk);
    let valid = Records {
        disk: whole,
        extents,
        runs,
    };
    let Some(b) = images::next_held(valid, from) else {
        bring_up(w, s, tails, count, disk);
        return;
    };
    let image = newest_block(valid, b);
    restore_block(w, s, disk, b, image);
}

// The next store of recovery over a disk whose first block is a master.
fn recovered(w: &mut State, disk: &mut [u8])
    requires { (length disk.old ≡ disk_size) × (is_master (block_at disk.old 0) ≡ true) }
    ensures { Stores (recovered in_sequence) w.old w.new disk.old disk.new }
{
    let s = disk_shape(disk);
    let whole = Disk::new(s, disk);
    let mut extents = [Extent::NONE; 96];
    let all = read_disk(whole, &mut extents);
    let layout = all.layout;
    let tails = all.tails;
    let runs = all.runs;
    let extents = &extents;
    let records = Records {
        disk: whole,
        extents,
        runs,
    };
    let valid = valid::valid_runs(layout, tails, records);
    next_store(w, s, disk, extents, valid, tails, runs.count);
}

// RECOVER. Memory takes no part: only its length is asked for.
pub fn recover(w: &mut State, disk: &mut [u8], memory: &[u8]) -> Result<u8, Refusal>
    ensures { Meets (recover in_sequence (world_in w.old disk.old memory.now))
        w.old w.new disk.new memory.now result }
{
    check_recover(w, disk, memory)?;
    recovered(w, disk);
    Ok(1)
}
