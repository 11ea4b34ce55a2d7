// How many committed transactions each core has, and a core's oldest one. A card that is up has come from FORMAT or from a finished
// recovery, so its commits have numbers; the master is not looked at.
ghost use Rattle.std.specs.Prelude.{◌≡◌, ◌<◌, min, get_or};
ghost use Rattle.cells.specs.Cells.{card_in};
ghost use Rattle.oldest.specs.Oldest.{count_at, Counts, ReadNow, oldest_in};

use cells::{State, closed_place, core_place, is_live, number_in, shape_of, tail_at, tails_of};
use journal::{Disk, Extent, Runs};
use model::{CommitLayout, Committed, DiskBytes};

// How many records of core c's journal count: those from the tail to the core's next number, without a closed one. A journal has
// no more than twelve.
pub fn counted(w: &State, c: u8) -> u8
    requires { c < 8 }
    ensures { result ≡ count_at (card_in w.now) c }
{
    let next = number_in(w, core_place(c));
    let t = tail_at(w, c);
    if next <= t.number {
        return 0;
    }
    let n = next - t.number;
    if is_live(w, closed_place(c)) {
        return (n - 1).min(12) as u8;
    }
    n.min(12) as u8
}

// The counts of the cores that the disk has.
fn counts(w: &State) -> [u8; 8]
    ensures { Counts (card_in w.now) result }
{
    let s = shape_of(w);
    let mut most = [0u8; 8];
    for c in 0..s.cores {
        most[c as usize] = counted(w, c);
    }
    most
}

// The committed transactions, read into a lent array: of each journal as many as the card counts.
pub fn read_committed(w: &State, bytes: &DiskBytes, extents: &mut [Extent; 96]) -> Runs
    ensures { ReadNow (card_in w.now) bytes.now extents.new result.start result.count }
{
    let disk = Disk {
        shape: shape_of(w),
        bytes,
    };
    disk.read_journals(CommitLayout::Numbers, tails_of(w), counts(w), extents)
}

// Core c's oldest one: the first of its records.
pub fn oldest_of(w: &State, c: u8, extents: &[Extent; 96], all: Runs) -> Option<Committed>
    requires { (c < 8) × (get_or all.start c 0 < 96) }
    ensures { result ≡ oldest_in (card_in w.now) extents.now all.start all.count c }
{
    let i = c as usize;
    if all.count[i] == 0 {
        return None;
    }
    let t = tail_at(w, c);
    Some(extents[all.start[i] as usize].committed(c, t.number))
}
