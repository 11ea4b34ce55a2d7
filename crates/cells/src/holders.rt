// The transaction that holds a block, by its name in a cell.
ghost use Rattle.std.specs.Prelude.{◌≡◌, ◌+◌, ◌<◌};
ghost use Rattle.model.specs.Card.{new_holder, holder_name, is_held, holder_of, with_holder};
ghost use Rattle.model.specs.declared.Card.{Card};
ghost use Rattle.cells.specs.Cells.{name_in, card_in, holder_place};
ghost use Rattle.cells.specs.Changes.{Changed};

use crate::State;
use crate::fields::HOLDERS;
use model::Name;

// The name in a cell.
pub fn name_of(n: u64) -> Name
    ensures { result ≡ name_in n }
{
    Name {
        core: (n % 8) as u8,
        number: (n / 8 % 4294967296) as u32,
    }
}

// The cell of a name.
fn cell_of(n: Name) -> u64
    requires { n.core < 8 }
    ensures { (name_in result ≡ n) × (result < 34359738368) }
{
    8 * n.number as u64 + n.core as u64
}

// Block b's holder, if it has one.
pub fn holder_at(w: &State, b: u8) -> Option<Name>
    requires { b < 64 }
    ensures { (result ≡ holder_of (card_in w.now) b) × ((holder_name result).core < 8) }
{
    let n = w[HOLDERS + b as usize];
    if n == 0 {
        return None;
    }
    Some(name_of(n - 1))
}

// Whether a transaction holds block b.
pub fn is_held(w: &State, b: u8) -> bool
    requires { b < 64 }
    ensures { result ≡ is_held (holder_of (card_in w.now) b) }
{
    holder_at(w, b).is_some()
}

// Block b held by the transaction of this name.
pub fn hold(w: &mut State, b: u8, n: Name)
    requires { (b < 64) × (n.core < 8) }
    ensures { Changed (λ (x : Card). with_holder x b (new_holder n)) w.old w.new (holder_place b) 1 }
{
    let cell = cell_of(n);
    w[HOLDERS + b as usize] = cell + 1;
}
