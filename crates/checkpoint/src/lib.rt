// CHECKPOINT over the card in its cells: a core's oldest committed transaction is stored home, one block with each call.
#![tactic(auto)]

mod stores; // a home store

ghost use Rattle.std.specs.Prelude.{◌≡◌};
ghost use Rattle.model.specs.Valid.{in_sequence};
ghost use Rattle.model.specs.Checkpoint.{checkpoint};
ghost use Rattle.cells.specs.Answer.{Meets};
ghost use Rattle.cells.specs.Cells.{world_in};

use crate::stores::stored_home;
use cells::State;
use model::Refusal;
use oldest::{ask_oldest, homed};

// CHECKPOINT. Where all images are stored home it answers 35.
pub fn checkpoint(w: &mut State, c: u8, disk: &mut [u8], memory: &[u8]) -> Result<u8, Refusal>
    ensures { Meets (checkpoint in_sequence c (world_in w.old disk.old memory.now))
        w.old w.new disk.new memory.now result }
{
    let e = ask_oldest(w, c, disk, memory)?;
    let done = homed(w, c);
    if e.count <= done {
        return Err(Refusal::AllStoredHome);
    }
    stored_home(w, c, done, e, disk);
    Ok(1)
}
