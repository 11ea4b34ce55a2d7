// STORE: a closed transaction is stored block by block until it is committed.
#![tactic(auto)]

mod core_state; // what it makes of a core's cells
mod next_block; // what is stored next

ghost use Rattle.std.specs.Prelude.{◌≡◌, ◌<◌, length};
ghost use Rattle.model.specs.Card.{core_of};
ghost use Rattle.model.specs.Command.{refusal};
ghost use Rattle.model.specs.Refusal.{answer_of};
ghost use Rattle.model.specs.Commit.{next_stored, store_conditions, store_next};
ghost use Rattle.model.specs.Limits.{block_size};
ghost use Rattle.cells.specs.Answer.{Meets};
ghost use Rattle.cells.specs.Cells.{card_in, world_in};

use crate::core_state::count_store;
use crate::next_block::{next_position, write_next};
use cells::{State, check_entry, closed_place, is_live, shape_of};
use model::{Memory, Refusal, Shape};

// Only a core with a closed transaction that is not committed yet has something to store.
fn check_store(w: &State, c: u8, disk: &[u8], memory: &[u8]) -> Result<(), Refusal>
    ensures { answer_of result ≡ refusal (store_conditions c (world_in w.now disk.now memory.now)) }
{
    check_entry(w, c, disk, memory)?;
    if !is_live(w, closed_place(c)) {
        return Err(Refusal::NothingToStore);
    }
    Ok(())
}

// The part lent becomes what is stored next.
fn store_block(part: &mut [u8], w: &State, c: u8, memory: &Memory)
    requires { (length part.old ≡ block_size) × (c < 8) }
    ensures { part.new ≡ next_stored c (core_of (card_in w.now) c) memory.now }
{
    write_next(part.first_chunk_mut().unwrap(), w, c, memory);
}

// STORE: the next block of the core's closed transaction goes to its journal.
pub fn store(w: &mut State, core: u8, disk: &mut [u8], memory: &[u8]) -> Result<u8, Refusal>
    ensures { Meets (store_next core (world_in w.old disk.old memory.now))
        w.old w.new disk.new memory.now result }
{
    check_store(w, core, disk, memory)?;
    let shape = shape_of(w);
    let start = Shape::BLOCK_SIZE * shape.journal_block(core, next_position(w, core));
    let end = start + Shape::BLOCK_SIZE;
    store_block(&mut disk[start..end], w, core, memory.as_array().unwrap());
    count_store(w, core);
    Ok(1)
}
