// CLOSE: a running transaction is frozen, with copies of its images.
#![tactic(auto)]

mod copies; // the closed copies in memory
mod frozen_core; // what it makes of a core's cells

ghost use Rattle.std.specs.Prelude.{◌≡◌};
ghost use Rattle.model.specs.Command.{refusal};
ghost use Rattle.model.specs.Refusal.{answer_of};
ghost use Rattle.model.specs.Commit.{close_conditions, close};
ghost use Rattle.cells.specs.Answer.{Meets};
ghost use Rattle.cells.specs.Cells.{world_in};

use crate::copies::copy_images;
use crate::frozen_core::close_running;
use cells::{State, check_entry, closed_place, is_live, running_place};
pub use copies::{copy_at, flags_of};
use model::Refusal;

// A core without a running transaction has none to close, and one is closed only when the one before is stored.
fn check_close(w: &State, c: u8, disk: &[u8], memory: &[u8]) -> Result<(), Refusal>
    ensures { answer_of result ≡ refusal (close_conditions c (world_in w.now disk.now memory.now)) }
{
    check_entry(w, c, disk, memory)?;
    if !is_live(w, running_place(c)) {
        return Err(Refusal::NoneRunning);
    }
    if is_live(w, closed_place(c)) {
        return Err(Refusal::PreviousNotStored);
    }
    Ok(())
}

// CLOSE: the core's running transaction is frozen, with copies of its images as they are now.
pub fn close(w: &mut State, core: u8, disk: &[u8], memory: &mut [u8]) -> Result<u8, Refusal>
    ensures { Meets (close core (world_in w.old disk.now memory.old))
        w.old w.new disk.now memory.new result }
{
    check_close(w, core, disk, memory)?;
    copy_images(w, running_place(core), core, memory.as_mut_array().unwrap());
    close_running(w, core);
    Ok(0)
}
