// CUT: memory is lost and the card is down. What was stored stands on the disk.
#![tactic(auto)]

ghost use Rattle.std.specs.Prelude.{◌≡◌};
ghost use Rattle.model.specs.Command.{refusal};
ghost use Rattle.model.specs.Refusal.{answer_of};
ghost use Rattle.model.specs.Recovery.{cut_conditions, cut};
ghost use Rattle.cells.specs.Answer.{Meets};
ghost use Rattle.cells.specs.Cells.{world_in};

use cells::{State, check_phase, go_down};
use model::Refusal;

// A card that is down is cut like one that is up.
fn check_cut(w: &State, disk: &[u8], memory: &[u8]) -> Result<(), Refusal>
    ensures { answer_of result ≡ refusal (cut_conditions (world_in w.now disk.now memory.now)) }
{
    check_phase(w, disk, memory, Err(Refusal::CardBlank), Ok(()), Ok(()))
}

// CUT.
pub fn cut(w: &mut State, disk: &[u8], memory: &mut [u8]) -> Result<u8, Refusal>
    ensures { Meets (cut (world_in w.old disk.now memory.old))
        w.old w.new disk.now memory.new result }
{
    check_cut(w, disk, memory)?;
    memory.fill(0);
    go_down(w);
    Ok(0)
}
