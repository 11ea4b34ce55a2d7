// What CHECKPOINT and RETIRE both ask: the refusals that they share, and the core's oldest transaction.
ghost use Rattle.std.specs.Prelude.{◌≡◌, [], ◌<◌};
ghost use Rattle.model.specs.Bytes.{Bytes};
ghost use Rattle.model.specs.Card.{shape_of, core_of};
ghost use Rattle.model.specs.Command.{refusal};
ghost use Rattle.model.specs.Valid.{in_sequence};
ghost use Rattle.model.specs.Checkpoint.{committed_conditions, oldest_conditions};
ghost use Rattle.cells.specs.Cells.{world_in, card_in};
ghost use Rattle.oldest.specs.Oldest.{OldestAsked};

use crate::committed::{counted, oldest_of, read_committed};
use crate::refusals::check_oldest;
use cells::{HOMED, State, byte_in, check_entry, core_place, shape_of};
use journal::{Disk, Extent, Records};
use model::{Committed, DiskBytes, Refusal};

// How many images of core c's oldest transaction are stored home.
pub fn homed(w: &State, c: u8) -> u8
    requires { c < 8 }
    ensures { result ≡ (core_of (card_in w.now) c).homed }
{
    byte_in(w, core_place(c) + HOMED)
}

// Of core c, one that the card has: the committed transactions are read, and the oldest is the first of its core.
fn ask_read(w: &State, c: u8, bytes: &DiskBytes) -> Result<Committed, Refusal>
    requires { c < (shape_of (card_in w.now)).cores }
    ensures { (m : Bytes) → OldestAsked (refusal (committed_conditions in_sequence c (world_in w.now bytes.now m) []))
        c (world_in w.now bytes.now m) result }
{
    let mut extents = [Extent::NONE; 96];
    let runs = read_committed(w, bytes, &mut extents);
    let Some(e) = oldest_of(w, c, &extents, runs) else {
        return Err(Refusal::NoneCommitted);
    };
    let disk = Disk {
        shape: shape_of(w),
        bytes,
    };
    let extents = &extents;
    let all = Records {
        disk,
        extents,
        runs,
    };
    check_oldest(w, c, all, e)?;
    Ok(e)
}

// Of any core. Where the card counts none of the core's, no journal is read.
pub fn ask_oldest(w: &State, c: u8, disk: &[u8], memory: &[u8]) -> Result<Committed, Refusal>
    ensures { let v = world_in w.now disk.now memory.now in
        OldestAsked (refusal (oldest_conditions in_sequence c v [])) c v result }
{
    check_entry(w, c, disk, memory)?;
    if counted(w, c) == 0 {
        return Err(Refusal::NoneCommitted);
    }
    ask_read(w, c, disk.try_into().unwrap())
}
