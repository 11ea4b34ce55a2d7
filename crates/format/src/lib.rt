// FORMAT: both slices zeroed, the master written, the card up with empty journals.
#![tactic(auto)]

ghost use Rattle.std.specs.Prelude.{◌≡◌, not, [], ◌∷◌, length};
ghost use Rattle.model.specs.Shape.{clamped};
ghost use Rattle.model.specs.Card.{is_blank};
ghost use Rattle.model.specs.Command.{refusal, wrong_length};
ghost use Rattle.model.specs.Refusal.{answer_of};
ghost use Rattle.model.specs.Format.{formatted, format};
ghost use Rattle.model.specs.Limits.{disk_size, memory_size};
ghost use Rattle.cells.specs.Cells.{card_in, world_in};
ghost use Rattle.cells.specs.Changes.{Frame};
ghost use Rattle.cells.specs.Answer.{outcome_in, Meets};

use cells::{State, check_phase, come_up};
use master_block::store_master;
use model::{Refusal, Shape, Tail};

// What FORMAT meets before its operands: a wrong length, a card that is not blank.
fn check_blank(w: &State, disk: &[u8], memory: &[u8]) -> Result<(), Refusal>
    ensures { answer_of result ≡ refusal ((wrong_length (world_in w.now disk.now memory.now), 1)
        ∷ (not (is_blank (card_in w.now).phase), 21) ∷ []) }
{
    let not_blank = Err(Refusal::CardNotBlank);
    check_phase(w, disk, memory, Ok(()), not_blank, not_blank)
}

// The card comes up over zeroed slices and a master with empty journals. The shape is within its limits.
fn set_up(w: &mut State, s: Shape, disk: &mut [u8], memory: &mut [u8])
    requires { (clamped s ≡ s) × (length disk.old ≡ disk_size) × (length memory.old ≡ memory_size) }
    ensures { (outcome_in (Ok 0) w.new disk.new memory.new ≡ formatted s)
        × Frame w.old w.new 0 423 }
{
    disk.fill(0);
    memory.fill(0);
    let tails = [Tail {
        number: 1,
        position: 0,
    }; 8];
    store_master(s, tails, disk);
    come_up(w, s, tails);
}

// FORMAT.
pub fn format(
    w: &mut State,
    cores: u8,
    blocks: u8,
    journal: u8,
    disk: &mut [u8],
    memory: &mut [u8],
) -> Result<u8, Refusal>
    ensures { Meets (format cores blocks journal (world_in w.old disk.old memory.old))
        w.old w.new disk.new memory.new result }
{
    check_blank(w, disk, memory)?;
    let Some(s) = Shape::new(cores as u32, blocks as u32, journal as u32) else {
        return Err(Refusal::OutOfRange);
    };
    set_up(w, s, disk, memory);
    Ok(0)
}
