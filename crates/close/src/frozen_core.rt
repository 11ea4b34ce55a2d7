// What CLOSE makes of a core's cells.
ghost use Rattle.std.specs.Prelude.{◌≡◌, ◌<◌};
ghost use Rattle.model.specs.Card.{core_of, with_core};
ghost use Rattle.model.specs.Commit.{closed_card};
ghost use Rattle.model.specs.declared.Card.{Card};
ghost use Rattle.cells.specs.Cells.{core_size, transaction_size, transaction_in, core_place, running_place, closed_place};
ghost use Rattle.cells.specs.Changes.{Frame, Changed};
ghost use Rattle.close.specs.Frozen.{frozen, counted_close};

use cells::{
    CLOSES, CoreNumbers, STAMP, State, TRANSACTION_SIZE, clear, closed_place, numbers_at,
    put_numbers, running_place,
};

// The cells of core c's running transaction copied to those of its closed one.
fn copy_running(w: &mut State, c: u8)
    requires { c < 8 }
    ensures { (transaction_in w.new (closed_place c) ≡ transaction_in w.old (running_place c))
        × Frame w.old w.new (closed_place c) transaction_size }
{
    let from = running_place(c);
    let to = closed_place(c);
    for i in 0..TRANSACTION_SIZE {
        w[to + i] = w[from + i];
    }
}

// The running transaction of core c frozen: it is the closed one under this stamp, and none is running.
fn freeze(w: &mut State, c: u8, stamp: u64)
    requires { c < 8 }
    ensures { Changed (λ (x : Card). with_core x c (frozen (core_of x c) stamp))
        w.old w.new (core_place c) core_size }
{
    let from = running_place(c);
    let to = closed_place(c);
    copy_running(w, c);
    w[to + STAMP] = stamp;
    clear(w, from);
}

// The numbers of core c after a CLOSE. The next one counts round only on a card that no run made.
fn count_close(w: &mut State, c: u8)
    requires { c < 8 }
    ensures { Changed (λ (x : Card). with_core x c (counted_close (core_of x c)))
        w.old w.new (core_place c) 4 }
{
    let k = numbers_at(w, c);
    let next = k.next.wrapping_add(1);
    put_numbers(
        w,
        c,
        CoreNumbers {
            next,
            stored: 0,
            ..k
        },
    );
}

// The running transaction of core c closed. Its stamp is the count of closes, which goes round only on a card that no run made.
pub fn close_running(w: &mut State, c: u8)
    requires { c < 8 }
    ensures { Changed (λ (x : Card). closed_card x c) w.old w.new 0 423 }
{
    let stamp = w[CLOSES].wrapping_add(1);
    freeze(w, c, stamp);
    count_close(w, c);
    w[CLOSES] = stamp;
}
