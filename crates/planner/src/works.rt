// The work left of each transaction: of a committed one by its record, of a closed and of a running one by their cells.
ghost use Rattle.std.specs.Prelude.{◌≡◌, ◌≤◌, ◌<◌, IfSome};
ghost use Rattle.model.specs.Card.{new_name, core_of};
ghost use Rattle.model.specs.Commit.{closed_number};
ghost use Rattle.journal.specs.Records.{extent_at};
ghost use Rattle.cells.specs.Cells.{name_cell, card_in};
ghost use Rattle.planner.specs.Works.{homed_at, committed_work, closed_work, running_work};

use crate::Work;
use cells::{
    STAMP, STORED, State, block_count, byte_in, closed_place, core_place, is_live, number_in,
    running_place, tail_at,
};
use journal::Extent;

// A name as one number. That of a transaction may pass four bytes here, on a card that no run made; it stays below 2^33, so eight
// times it fits.
fn cell_of(c: u8, number: u64) -> u64
    requires { number < 8589934592 }
    ensures { result ≡ name_cell (new_name c number) }
{
    8 * number + c as u64
}

// The home stores done of core c's j-th committed transaction: those counted are the oldest's.
fn homed_at(w: &State, c: u8, j: usize) -> usize
    requires { c < 8 }
    ensures { result ≡ homed_at (core_of (card_in w.now) c) j }
{
    if j != 0 {
        return 0;
    }
    oldest::homed(w, c) as usize
}

// Core c's j-th committed transaction, whose record stands at place i.
pub fn committed_work(w: &State, extents: &[Extent; 96], c: u8, j: usize, i: usize) -> Work
    requires { (c < 8) × (j < 12) × (i < 96) × ((extent_at extents.now i).count ≤ 8) }
    ensures { (result ≡ committed_work (card_in w.now) extents.now c j i) × (result.stores ≤ 19) }
{
    let t = tail_at(w, c);
    let homed = homed_at(w, c, j);
    let x = extents[i];
    Work {
        name: cell_of(c, t.number as u64 + j as u64),
        stamp: Some(x.stamp),
        stores: (x.count as usize).saturating_sub(homed) + 1,
    }
}

// The name of core c's closed transaction, which has the number before the next.
fn closed_name(w: &State, c: u8) -> u64
    requires { c < 8 }
    ensures { result ≡ name_cell (new_name c (closed_number (core_of (card_in w.now) c))) }
{
    let next = number_in(w, core_place(c));
    cell_of(c, next.saturating_sub(1) as u64)
}

// Core c's closed transaction: the stores of its record that are left, then its images and the master.
pub fn closed_work(w: &State, c: u8) -> Option<Work>
    requires { c < 8 }
    ensures { (result ≡ closed_work c (core_of (card_in w.now) c)) × IfSome result (λ k. k.stores ≤ 19) }
{
    let at = closed_place(c);
    if !is_live(w, at) {
        return None;
    }
    let n = block_count(w, at);
    let stored = byte_in(w, core_place(c) + STORED) as usize;
    Some(Work {
        name: closed_name(w, c),
        stamp: Some(w[at + STAMP]),
        stores: ((n + 1).saturating_sub(stored) + 1) + (n + 1),
    })
}

// Core c's running transaction: its stamp is given at CLOSE.
pub fn running_work(w: &State, c: u8) -> Option<Work>
    requires { c < 8 }
    ensures { (result ≡ running_work c (core_of (card_in w.now) c)) × IfSome result (λ k. k.stores ≤ 19) }
{
    let at = running_place(c);
    if !is_live(w, at) {
        return None;
    }
    let n = block_count(w, at);
    let number = number_in(w, core_place(c));
    Some(Work {
        name: cell_of(c, number as u64),
        stamp: None,
        stores: (n + 2) + (n + 1),
    })
}
