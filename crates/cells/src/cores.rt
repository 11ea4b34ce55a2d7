// A core's numbers: next, used, stored, homed.
ghost use Rattle.std.specs.Prelude.{◌≡◌, ◌<◌};
ghost use Rattle.model.specs.Card.{core_of, with_core};
ghost use Rattle.model.specs.declared.Card.{Card};
ghost use Rattle.cells.specs.Cells.{card_in, core_place};
ghost use Rattle.cells.specs.Changes.{numbers_of, with_numbers, Changed};

use crate::State;
use crate::fields::{HOMED, STORED, USED, byte_in, core_place, number_in};

// A core's numbers: that of its running transaction or of the next one to open, the blocks used, the stores and the home stores done.
#[derive(Clone, Copy, Debug, PartialEq, Eq)]
pub struct CoreNumbers {
    pub next: u32,
    pub used: u8,
    pub stored: u8,
    pub homed: u8,
}

// Core c's numbers.
pub fn numbers_at(w: &State, c: u8) -> CoreNumbers
    requires { c < 8 }
    ensures { result ≡ numbers_of (core_of (card_in w.now) c) }
{
    let at = core_place(c);
    CoreNumbers {
        next: number_in(w, at),
        used: byte_in(w, at + USED),
        stored: byte_in(w, at + STORED),
        homed: byte_in(w, at + HOMED),
    }
}

// Core c with these numbers.
pub fn put_numbers(w: &mut State, c: u8, n: CoreNumbers)
    requires { c < 8 }
    ensures { Changed (λ (x : Card). with_core x c (with_numbers (core_of x c) n.next n.used n.stored n.homed))
        w.old w.new (core_place c) 4 }
{
    let at = core_place(c);
    w[at] = n.next as u64;
    w[at + USED] = n.used as u64;
    w[at + STORED] = n.stored as u64;
    w[at + HOMED] = n.homed as u64;
}
