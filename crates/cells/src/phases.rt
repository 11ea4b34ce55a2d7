// The card as each phase begins: blank, up, down.
ghost use Rattle.std.specs.Prelude.{◌≡◌, map, replicate};
ghost use Rattle.model.specs.Card.{fresh_core, fresh_card, blank_card, down_card, with_arrays};
ghost use Rattle.model.specs.declared.Phase.TheVariants.{Up};
ghost use Rattle.model.specs.declared.Card.{Card};
ghost use Rattle.cells.specs.Cells.{card_in, cells_of};
ghost use Rattle.cells.specs.Changes.{up_with, Frame, Changed};

use crate::State;
use crate::cores::{CoreNumbers, put_numbers};
use crate::fields::{PHASE, SHAPE_BLOCKS, SHAPE_CORES, SHAPE_JOURNAL};
use crate::tails::put_tail;
use model::{Phase, Shape, Tail};

// Every cell zeroed: the card is blank.
pub fn blank(w: &mut State)
    ensures { (w.new ≡ cells_of blank_card 0)
        × (card_in w.new ≡ blank_card)
        × Frame w.old w.new 0 423 }
{
    *w = [0; 423];
}

// The card down: it keeps nothing else.
pub fn go_down(w: &mut State)
    ensures { (w.new ≡ cells_of down_card 0)
        × (card_in w.new ≡ down_card)
        × Frame w.old w.new 0 423 }
{
    blank(w);
    w[PHASE] = Phase::Down as u64;
}

// The card up, with this shape.
fn put_shape(w: &mut State, s: Shape)
    ensures { Changed (λ (x : Card). up_with x s) w.old w.new 0 4 }
{
    w[PHASE] = Phase::Up as u64;
    w[SHAPE_CORES] = s.cores as u64;
    w[SHAPE_BLOCKS] = s.blocks as u64;
    w[SHAPE_JOURNAL] = s.journal as u64;
}

// Each core that has nothing yet begins at its tail.
fn begin_all(w: &mut State, tails: [Tail; 8])
    requires { (card_in w.old).cores ≡ replicate 8 (fresh_core 0) }
    ensures { Changed (λ (x : Card). with_arrays x tails (map (λ (t : Tail). fresh_core t.number) tails) x.holders)
        w.old w.new 0 423 }
{
    for c in 0..8 {
        let t = tails[c as usize];
        put_numbers(
            w,
            c,
            CoreNumbers {
                next: t.number,
                used: 0,
                stored: 0,
                homed: 0,
            },
        );
        put_tail(w, c, t);
    }
}

// The card up: empty journals that begin at these tails, no holder, no close counted.
pub fn come_up(w: &mut State, s: Shape, tails: [Tail; 8])
    ensures { (card_in w.new ≡ fresh_card Up s tails)
        × Frame w.old w.new 0 423 }
{
    blank(w);
    put_shape(w, s);
    begin_all(w, tails);
}
