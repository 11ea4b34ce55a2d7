// Where each core's journal begins.
ghost use Rattle.std.specs.Prelude.{◌≡◌, ◌+◌, ◌<◌};
ghost use Rattle.model.specs.Card.{tail_of};
ghost use Rattle.model.specs.declared.Card.{Card};
ghost use Rattle.cells.specs.Cells.{card_in, tail_place};
ghost use Rattle.cells.specs.Changes.{with_tail, Changed};

use crate::State;
use crate::fields::{POSITION, TAIL_SIZE, TAILS, byte_in, number_in};
use model::Tail;
use std::array;

// Core c's tail.
pub fn tail_at(w: &State, c: u8) -> Tail
    requires { c < 8 }
    ensures { result ≡ tail_of (card_in w.now) c }
{
    let at = TAILS + TAIL_SIZE * c as usize;
    Tail {
        number: number_in(w, at),
        position: byte_in(w, at + POSITION),
    }
}

// The tails of all cores.
pub fn tails_of(w: &State) -> [Tail; 8]
    ensures { result ≡ (card_in w.now).tails }
{
    array::from_fn(|c| tail_at(w, c as u8))
}

// Core c's tail replaced.
pub fn put_tail(w: &mut State, c: u8, t: Tail)
    requires { c < 8 }
    ensures { Changed (λ (x : Card). with_tail x c t) w.old w.new (tail_place c) 2 }
{
    let at = TAILS + TAIL_SIZE * c as usize;
    w[at] = t.number as u64;
    w[at + POSITION] = t.position as u64;
}
