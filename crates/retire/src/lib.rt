// RETIRE over the card in its cells: the master is stored with the tail moved past a core's oldest transaction, which retires it.
#![tactic(auto)]

mod retired; // the cells after a transaction is retired

ghost use Rattle.std.specs.Prelude.{◌≡◌, ◌≤◌, ◌<◌, length};
ghost use Rattle.model.specs.Checkpoint.{stored_master, retire};
ghost use Rattle.model.specs.Limits.{disk_size, max_number};
ghost use Rattle.model.specs.Valid.{in_sequence};
ghost use Rattle.cells.specs.Answer.{Meets, Stores};
ghost use Rattle.cells.specs.Cells.{world_in};

use crate::retired::{moved_tail, retire_card};
use cells::{State, shape_of, tails_of};
use model::{Committed, Refusal};
use oldest::{ask_oldest, homed};

// The master with the tail moved past the transaction, then the cells.
fn stored_master(w: &mut State, c: u8, e: Committed, disk: &mut [u8])
    requires { (length disk.old ≡ disk_size) × (c < 8) × (e.number ≤ max_number) }
    ensures { Stores (stored_master c e) w.old w.new disk.old disk.new }
{
    let s = shape_of(w);
    let t = moved_tail(s, e);
    let mut tails = tails_of(w);
    tails[c as usize] = t;
    master_block::store_master(s, tails, disk);
    retire_card(w, c, t, e);
}

// RETIRE. While images are left to be stored home it answers 34.
pub fn retire(w: &mut State, c: u8, disk: &mut [u8], memory: &[u8]) -> Result<u8, Refusal>
    ensures { Meets (retire in_sequence c (world_in w.old disk.old memory.now))
        w.old w.new disk.new memory.now result }
{
    let e = ask_oldest(w, c, disk, memory)?;
    if homed(w, c) < e.count {
        return Err(Refusal::HomeStoresLeft);
    }
    stored_master(w, c, e, disk);
    Ok(1)
}
