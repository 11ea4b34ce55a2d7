// The plan of a card that is up, and what refuses one.
ghost use Rattle.std.specs.Prelude.{◌≡◌, length};
ghost use Rattle.model.specs.Bytes.{Bytes};
ghost use Rattle.model.specs.Limits.{disk_size};
ghost use Rattle.cells.specs.Cells.{world_in};
ghost use Rattle.planner.specs.Plan.{unretired_now, plan_for, plan};
ghost use Rattle.planner.specs.Result.{answered, plan_of};

use crate::{Found, PlannedWork};
use cells::{State, check_up};
use journal::Extent;
use model::Refusal;

// The plan from all that is not retired.
fn plan_up(w: &State, disk: &[u8]) -> PlannedWork
    requires { length disk.now ≡ disk_size }
    ensures { (m : Bytes) → answered (Ok result) ≡ plan_of (plan_for (unretired_now (world_in w.now disk.now m))) }
{
    let mut extents = [Extent::NONE; 96];
    let all = oldest::read_committed(w, disk.try_into().unwrap(), &mut extents);
    let mut found = Found::new();
    found.take_all(w, &extents, all);
    let order = found.names;
    PlannedWork {
        commands: found.commands,
        stores: found.stores,
        count: found.count,
        order,
    }
}

// How many commands will empty every journal if nobody writes meanwhile, how many of them store, and in which order transactions retire.
pub fn plan(w: &State, disk: &[u8], memory: &[u8]) -> Result<PlannedWork, Refusal>
    ensures { answered result ≡ plan_of (plan (world_in w.now disk.now memory.now)) }
{
    check_up(w, disk, memory)?;
    Ok(plan_up(w, disk))
}
