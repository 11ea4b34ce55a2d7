// What commands meet first: slices of a wrong length, the card's phase, a core or a block that the disk has not.
ghost use Rattle.std.specs.Prelude.{◌≡◌, cond, [], ◌∷◌, leb};
ghost use Rattle.model.specs.Card.{shape_of};
ghost use Rattle.model.specs.Command.{refusal, wrong_length, not_up, no_core};
ghost use Rattle.model.specs.Refusal.{answer_of};
ghost use Rattle.cells.specs.Answer.{phase_refusal};
ghost use Rattle.cells.specs.Cells.{world, world_in, card_in};

use crate::State;
use crate::fields::{phase_of, shape_of};
use model::{Card, Phase, Refusal, Shape};

// Whether a lent slice has not its length; the card plays no part.
pub fn wrong_length(disk: &[u8], memory: &[u8]) -> bool
    ensures { (x : Card) → result ≡ wrong_length (world x disk.now memory.now) }
{
    if disk.len() != Shape::DISK_SIZE {
        return true;
    }
    memory.len() != Shape::MEMORY_SIZE
}

// What every command meets first: a wrong length, then what it answers for the card's phase.
pub fn check_phase(
    w: &State,
    disk: &[u8],
    memory: &[u8],
    blank: Result<(), Refusal>,
    up: Result<(), Refusal>,
    down: Result<(), Refusal>,
) -> Result<(), Refusal>
    ensures { answer_of result
        ≡ phase_refusal (world_in w.now disk.now memory.now) (answer_of blank) (answer_of up) (answer_of down) }
{
    if wrong_length(disk, memory) {
        return Err(Refusal::WrongLength);
    }
    match phase_of(w) {
        Phase::Blank => blank,
        Phase::Up => up,
        Phase::Down => down,
    }
}

// What WRITE, CLOSE, STORE, CHECKPOINT, RETIRE, reading and the planner meet first: a wrong length, a card that is not up.
pub fn check_up(w: &State, disk: &[u8], memory: &[u8]) -> Result<(), Refusal>
    ensures { answer_of result ≡ refusal (not_up (world_in w.now disk.now memory.now) []) }
{
    check_phase(
        w,
        disk,
        memory,
        Err(Refusal::CardBlank),
        Ok(()),
        Err(Refusal::CardDown),
    )
}

// Refusal 5, a core that the disk's shape has not.
pub fn check_core(w: &State, c: u8) -> Result<(), Refusal>
    ensures { answer_of result ≡ cond (leb (shape_of (card_in w.now)).cores c) 5 0 }
{
    if shape_of(w).cores <= c {
        return Err(Refusal::NoCore);
    }
    Ok(())
}

// What WRITE, CLOSE, STORE, CHECKPOINT and RETIRE meet first: a wrong length, a card that is not up, a core that the disk has not.
pub fn check_entry(w: &State, c: u8, disk: &[u8], memory: &[u8]) -> Result<(), Refusal>
    ensures { answer_of result ≡ refusal (not_up (world_in w.now disk.now memory.now)
        ((no_core (world_in w.now disk.now memory.now) c, 5) ∷ [])) }
{
    check_up(w, disk, memory)?;
    check_core(w, c)
}

// Refusal 6, a block that the disk's shape has not.
pub fn check_block(w: &State, b: u16) -> Result<(), Refusal>
    ensures { answer_of result ≡ cond (leb (shape_of (card_in w.now)).blocks b) 6 0 }
{
    if shape_of(w).blocks as u16 <= b {
        return Err(Refusal::NoBlock);
    }
    Ok(())
}
