// What STORE makes of a core's cells.
ghost use Rattle.std.specs.Prelude.{◌≡◌, ◌<◌};
ghost use Rattle.model.specs.Card.{core_of, with_core};
ghost use Rattle.model.specs.Commit.{core_stored};
ghost use Rattle.model.specs.declared.Card.{Card};
ghost use Rattle.cells.specs.Cells.{core_size, core_place};
ghost use Rattle.cells.specs.Changes.{Changed};

use cells::{CoreNumbers, State, block_count, clear, closed_place, numbers_at, put_numbers};

// One more store of core c done; with the commit stored its transaction is committed, and its record counts as used.
pub fn count_store(w: &mut State, c: u8)
    requires { c < 8 }
    ensures { Changed (λ (x : Card). with_core x c (core_stored (core_of x c)))
        w.old w.new (core_place c) core_size }
{
    let k = numbers_at(w, c);
    let stored = k.stored;
    let closed = closed_place(c);
    let count = block_count(w, closed);
    if stored as usize <= count {
        put_numbers(
            w,
            c,
            CoreNumbers {
                stored: stored + 1,
                ..k
            },
        );
        return;
    }
    let used = k.used.wrapping_add(count as u8 + 2);
    put_numbers(
        w,
        c,
        CoreNumbers {
            used,
            stored: 0,
            ..k
        },
    );
    clear(w, closed);
}
