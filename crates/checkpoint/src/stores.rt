// A home store.
ghost use Rattle.std.specs.Prelude.{◌≡◌, ◌<◌, get_or};
ghost use Rattle.model.specs.Bytes.{store};
ghost use Rattle.model.specs.Shape.{home_block};
ghost use Rattle.model.specs.Card.{shape_of, core_of, with_core};
ghost use Rattle.model.specs.Journal.{blocks_of, image_of};
ghost use Rattle.model.specs.Checkpoint.{homed_core, stored_home};
ghost use Rattle.model.specs.declared.Card.{Card};
ghost use Rattle.cells.specs.Cells.{card_in, core_place};
ghost use Rattle.cells.specs.Changes.{Changed};
ghost use Rattle.cells.specs.Answer.{Stores};
ghost use Rattle.oldest.specs.Oldest.{IsRead};

use cells::{CoreNumbers, State, numbers_at, put_numbers, shape_of};
use journal::Disk;
use model::{Committed, Shape};
use oldest::block_at;

// The i-th block of a transaction stored home, with its image out of the journal.
fn put_home(s: Shape, e: Committed, i: usize, disk: &mut [u8])
    requires { IsRead s disk.old e × (i < e.count) }
    ensures { disk.new
        ≡ store disk.old (home_block (get_or (blocks_of s disk.old e) i 0)) (image_of s disk.old e i) }
{
    let whole = Disk::new(s, disk);
    let b = block_at(whole, e, i);
    let at = images::image_at(whole, e, i);
    let image = layout::load_block(disk, at.block);
    layout::store_home(s, b, layout::unescape(at.flag, image), disk);
}

// Core c after one more home store.
fn count_home(w: &mut State, c: u8, homed: u8)
    requires { (c < 8) × (homed < 255) × (homed ≡ (core_of (card_in w.old) c).homed) }
    ensures { Changed (λ (x : Card). with_core x c (homed_core (core_of x c))) w.old w.new (core_place c) 4 }
{
    let k = numbers_at(w, c);
    put_numbers(
        w,
        c,
        CoreNumbers {
            homed: homed + 1,
            ..k
        },
    );
}

// A home store: the image of the next block of the transaction.
pub fn stored_home(w: &mut State, c: u8, homed: u8, e: Committed, disk: &mut [u8])
    requires { (c < 8) × IsRead (shape_of (card_in w.old)) disk.old e
        × (homed ≡ (core_of (card_in w.old) c).homed) × (homed < e.count) }
    ensures { Stores (stored_home c e) w.old w.new disk.old disk.new }
{
    let s = shape_of(w);
    put_home(s, e, homed as usize, disk);
    count_home(w, c, homed);
}
