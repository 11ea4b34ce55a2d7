// The cells after a transaction is retired: its core's tail and numbers, and no block held by it.
ghost use Rattle.std.specs.Prelude.{◌≡◌, ◌-◌, ◌≤◌, ◌<◌};
ghost use Rattle.model.specs.Card.{shape_of, core_of, with_core};
ghost use Rattle.model.specs.Checkpoint.{moved_tail, retired_core, retired_card};
ghost use Rattle.model.specs.Limits.{max_number};
ghost use Rattle.model.proofs.Limits.{InRange};
ghost use Rattle.model.specs.declared.Card.{Card};
ghost use Rattle.cells.specs.Cells.{first_holder, card_in, core_place};
ghost use Rattle.cells.specs.Changes.{Changed};
ghost use Rattle.retire.specs.Released.{with_released, Freed};

use cells::{CoreNumbers, HOLDERS, State, name_of, numbers_at, put_numbers, put_tail};
use model::{Committed, Name, Shape, Tail, around};

// A holder's cell after the transaction of this name is retired.
fn freed_cell(x: u64, n: Name) -> u64
    ensures { Freed n x result }
{
    if x == 0 {
        return 0;
    }
    if name_of(x - 1) == n {
        return 0;
    }
    x
}

// No block held by the transaction of this name any more.
fn release(w: &mut State, n: Name)
    ensures { Changed (λ (x : Card). with_released x n) w.old w.new first_holder 64 }
{
    for b in 0..64 {
        let x = w[HOLDERS + b];
        w[HOLDERS + b] = freed_cell(x, n);
    }
}

// The tail past a transaction. Its number was read from a record, so the next one fits.
pub fn moved_tail(s: Shape, e: Committed) -> Tail
    requires { InRange s × (e.number ≤ max_number) }
    ensures { result ≡ moved_tail s e }
{
    let size = e.count as usize + 2;
    let at = around(e.position as usize + size, s.journal as usize);
    Tail {
        number: e.number + 1,
        position: at as u8,
    }
}

// The blocks still used after n of them are free again.
fn blocks_left(used: u8, n: usize) -> u8
    ensures { result ≡ used - n }
{
    usize::from(used).saturating_sub(n) as u8
}

// Core c's numbers after its oldest transaction is retired.
fn retire_core(w: &mut State, c: u8, e: Committed)
    requires { c < 8 }
    ensures { Changed (λ (x : Card). with_core x c (retired_core (core_of x c) e))
        w.old w.new (core_place c) 4 }
{
    let k = numbers_at(w, c);
    let used = blocks_left(k.used, e.count as usize + 2);
    put_numbers(
        w,
        c,
        CoreNumbers {
            used,
            homed: 0,
            ..k
        },
    );
}

// The card after core c's oldest transaction is retired, with the tail moved past it.
pub fn retire_card(w: &mut State, c: u8, t: Tail, e: Committed)
    requires { (c < 8) × (t ≡ moved_tail (shape_of (card_in w.old)) e) }
    ensures { Changed (retired_card c e) w.old w.new 0 423 }
{
    let n = Name {
        core: e.core,
        number: e.number,
    };
    put_tail(w, c, t);
    retire_core(w, c, e);
    release(w, n);
}
