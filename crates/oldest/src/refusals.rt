// Whether a core's oldest transaction may be stored home and retired.
ghost use Rattle.std.specs.Prelude.{◌≡◌, []};
ghost use Rattle.model.specs.Bytes.{Bytes};
ghost use Rattle.model.specs.Card.{shape_of};
ghost use Rattle.model.specs.Command.{refusal};
ghost use Rattle.model.specs.Refusal.{answer_of};
ghost use Rattle.model.specs.Valid.{in_sequence};
ghost use Rattle.model.specs.Checkpoint.{found_conditions};
ghost use Rattle.cells.specs.Cells.{world_in, card_in};
ghost use Rattle.oldest.specs.Oldest.{IsOldest};

use crate::shared::shares_lower;
use cells::{State, tails_of};
use journal::Records;
use model::{CommitLayout, Committed, Refusal};

// 32, the oldest is not in the valid set; 33, one of lower stamp shares a block.
pub fn check_oldest(w: &State, c: u8, all: Records, e: Committed) -> Result<(), Refusal>
    requires { (all.disk.shape ≡ shape_of (card_in w.now))
        × IsOldest (card_in w.now) all.disk.bytes.now c all.extents.now all.runs.start all.runs.count e }
    ensures { (m : Bytes) → answer_of result ≡ refusal (found_conditions in_sequence e (world_in w.now all.entry.disk.bytes.now m) []) }
{
    let valid = valid::valid_runs(CommitLayout::Numbers, tails_of(w), all);
    if valid.count[c as usize] == 0 {
        return Err(Refusal::OldestNotValid);
    }
    if shares_lower(w, all, e) {
        return Err(Refusal::SharedBlock);
    }
    Ok(())
}
