// A transaction at its place: whether there is one, how many blocks it took, none.
ghost use Rattle.std.specs.Prelude.{◌≡◌, ◌+◌, ◌≤◌, length};
ghost use Rattle.model.specs.Card.{no_transaction, taken};
ghost use Rattle.model.specs.Limits.{max_taken};
ghost use Rattle.cells.specs.Cells.{transaction_size, transaction_in};
ghost use Rattle.cells.specs.Changes.{Frame};

use crate::State;
use crate::fields::{COUNT, TRANSACTION_SIZE, byte_in};
use model::Shape;

// Whether there is a transaction at a place.
pub fn is_live(w: &State, at: usize) -> bool
    requires { at + transaction_size ≤ 423 }
    ensures { result ≡ (transaction_in w.now at).live }
{
    w[at] != 0
}

// How many blocks it took.
pub fn block_count(w: &State, at: usize) -> usize
    requires { at + transaction_size ≤ 423 }
    ensures { (result ≡ length (taken (transaction_in w.now at))) × (result ≤ max_taken) }
{
    usize::from(byte_in(w, at + COUNT)).min(Shape::MAX_TAKEN)
}

// No transaction at a place.
pub fn clear(w: &mut State, at: usize)
    requires { at + transaction_size ≤ 423 }
    ensures { (transaction_in w.new at ≡ no_transaction) × Frame w.old w.new at transaction_size }
{
    w[at..at + TRANSACTION_SIZE].fill(0);
}
