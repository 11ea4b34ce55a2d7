// The count of stores, which is no part of the card.
ghost use Rattle.std.specs.Prelude.{◌≡◌, set};
ghost use Rattle.cells.specs.Cells.{stores_place, stores_in};

use crate::State;
use crate::fields::STORES;

pub fn stores_of(w: &State) -> u64
    ensures { result ≡ stores_in w.now }
{
    w[STORES]
}

pub fn put_stores(w: &mut State, n: u64)
    ensures { w.new ≡ set w.old stores_place n }
{
    w[STORES] = n;
}
