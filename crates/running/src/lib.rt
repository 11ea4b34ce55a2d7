// The running transaction at its place in the cells: opened, a number raised, a block taken. No function here is a public entry of the
// library.
#![tactic(auto)]

ghost use Rattle.std.specs.Prelude.{◌≡◌, ◌<◌};
ghost use Rattle.model.specs.Card.{with_name, with_block};
ghost use Rattle.model.specs.declared.Transaction.{Transaction};
ghost use Rattle.model.specs.Limits.{max_taken};
ghost use Rattle.cells.specs.Cells.{transaction_in};
ghost use Rattle.cells.specs.Changes.{opened_or, IsPlace, ChangedAt};

use cells::{BLOCKS, COUNT, HIGHEST, State, byte_in, clear, is_live, number_in};
use model::Name;

// The transaction at a place, or one that opens.
pub fn open_at(w: &mut State, at: usize)
    requires { IsPlace at }
    ensures { ChangedAt at opened_or w.old w.new }
{
    if is_live(w, at) {
        return;
    }
    clear(w, at);
    w[at] = 1;
}

// It names n: the number of n's core raised to n's, where that is higher.
pub fn raise_number(w: &mut State, at: usize, n: Name)
    requires { IsPlace at × (n.core < 8) }
    ensures { ChangedAt at (λ (t : Transaction). with_name t n) w.old w.new }
{
    let i = at + HIGHEST + n.core as usize;
    if n.number <= number_in(w, i) {
        return;
    }
    w[i] = n.number as u64;
}

// The block taken.
pub fn add_block(w: &mut State, at: usize, b: u8)
    requires { IsPlace at × ((transaction_in w.old at).count < max_taken) }
    ensures { ChangedAt at (λ (t : Transaction). with_block t b) w.old w.new }
{
    let i = byte_in(w, at + COUNT);
    w[at + BLOCKS + i as usize] = b as u64;
    w[at + COUNT] = i as u64 + 1;
}
