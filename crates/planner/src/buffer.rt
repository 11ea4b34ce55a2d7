// The plan laid into a lent buffer of 116 cells.
ghost use Rattle.std.specs.Prelude.{◌≡◌, ◌∷◌};
ghost use Rattle.cells.specs.Cells.{world_in};
ghost use Rattle.planner.specs.Plan.{plan};
ghost use Rattle.planner.specs.Result.{plan_cells};

use crate::planning::plan;
use cells::State;

// Four numbers, and the order behind them.
fn lay_cells(
    out: &mut [u64; 116],
    number: u8,
    commands: usize,
    stores: usize,
    count: usize,
    order: &[u64; 112],
)
    ensures { out.new ≡ number ∷ commands ∷ stores ∷ count ∷ order.now }
{
    out[0] = number as u64;
    out[1] = commands as u64;
    out[2] = stores as u64;
    out[3] = count as u64;
    out[4..].copy_from_slice(order);
}

// The plan of a card.
pub fn lay_plan(w: &State, disk: &[u8], memory: &[u8], out: &mut [u64; 116])
    ensures { out.new ≡ plan_cells (plan (world_in w.now disk.now memory.now)) }
{
    match plan(w, disk, memory) {
        Ok(p) => lay_cells(out, 0, p.commands, p.stores, p.count, &p.order),
        Err(e) => lay_cells(out, u8::from(e), 0, 0, 0, &[0; 112]),
    }
}
