// WRITE: four bytes replaced in a block's memory image, which is loaded from home where the block had no holder. What it meets
// is found once and handed on.
#![tactic(auto)]

mod effect; // the cells afterwards
mod image; // memory afterwards

ghost use Rattle.std.specs.Prelude.{◌≡◌};
ghost use Rattle.model.specs.Command.{refusal};
ghost use Rattle.model.specs.Refusal.{answer_of};
ghost use Rattle.model.specs.Write.{write};
ghost use Rattle.cells.specs.Answer.{Meets};
ghost use Rattle.cells.specs.Cells.{world_in, card_in};
ghost use Rattle.transaction.specs.Writing.{first_conditions, Unrefused};

use crate::effect::write_state;
use crate::image::write_memory;
use cells::{State, check_block, check_entry, shape_of};
use model::{Refusal, Shape};
use rules::{check_room, find};

// What a WRITE meets before its rule.
fn check_operands(
    w: &State,
    c: u8,
    b: u16,
    o: u8,
    disk: &[u8],
    memory: &[u8],
) -> Result<(), Refusal>
    ensures { answer_of result ≡ refusal (first_conditions c b o (world_in w.now disk.now memory.now)) }
{
    check_entry(w, c, disk, memory)?;
    check_block(w, b)?;
    if Shape::MAX_OFFSET < o {
        return Err(Refusal::OffsetPast);
    }
    Ok(())
}

// A WRITE that has passed them: refused for want of room, or done.
fn write_ruled(
    w: &mut State,
    limit: usize,
    c: u8,
    b: u8,
    o: u8,
    bytes: [u8; 4],
    disk: &[u8],
    memory: &mut [u8],
) -> Result<u8, Refusal>
    requires { Unrefused (card_in w.old) c b o disk.now memory.old }
    ensures { Meets (write limit c b o bytes (world_in w.old disk.now memory.old))
        w.old w.new disk.now memory.new result }
{
    let s = shape_of(w);
    let f = find(w, c, b);
    check_room(w, s, limit, f)?;
    let rule = f.rule;
    write_memory(s, rule, b, o, bytes, disk, memory);
    write_state(w, f);
    Ok(0)
}

// WRITE of a task with this limit.
pub fn write(
    w: &mut State,
    limit: usize,
    core: u8,
    block: u16,
    offset: u8,
    bytes: [u8; 4],
    disk: &[u8],
    memory: &mut [u8],
) -> Result<u8, Refusal>
    ensures { Meets (write limit core block offset bytes (world_in w.old disk.now memory.old))
        w.old w.new disk.now memory.new result }
{
    check_operands(w, core, block, offset, disk, memory)?;
    write_ruled(w, limit, core, block as u8, offset, bytes, disk, memory)
}
