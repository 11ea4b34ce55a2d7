// Where each part of the state stands, and the fields of the header.
ghost use Rattle.std.specs.Prelude.{◌≡◌, ◌+◌, ◌<◌};
ghost use Rattle.model.specs.Card.{shape_of};
ghost use Rattle.cells.specs.Cells.{byte_in, number_in, card_in, core_place, running_place, closed_place};

use crate::State;
use model::{Phase, Shape};

// The header: phase, the shape's three numbers, closes, how far recovery is, the count of stores.
pub const PHASE: usize = 0;

pub const SHAPE_CORES: usize = 1;

pub const SHAPE_BLOCKS: usize = 2;

pub const SHAPE_JOURNAL: usize = 3;

pub const CLOSES: usize = 4;

pub const RECOVERED: usize = 5;

pub const STORES: usize = 6;

// Eight tails, each its number and its position; 64 holders, eight cores.
pub const TAILS: usize = 7;

pub const TAIL_SIZE: usize = 2;

pub const POSITION: usize = 1;

pub const HOLDERS: usize = 23;

pub const CORES: usize = 87;

// A core: its next number, then blocks used, stores and home stores done, then its two transactions.
pub const CORE_SIZE: usize = 42;

pub const USED: usize = 1;

pub const STORED: usize = 2;

pub const HOMED: usize = 3;

pub const RUNNING: usize = 4;

pub const CLOSED: usize = 23;

// A transaction: whether there is one, then its stamp, the count of its blocks, the blocks, the highest number of each core.
pub const TRANSACTION_SIZE: usize = 19;

pub const STAMP: usize = 1;

pub const COUNT: usize = 2;

pub const BLOCKS: usize = 3;

pub const HIGHEST: usize = 11;

// The lowest byte of cell i.
pub fn byte_in(w: &State, i: usize) -> u8
    requires { i < 423 }
    ensures { result ≡ byte_in w.now i }
{
    (w[i] % 256) as u8
}

// The lowest four bytes of cell i.
pub fn number_in(w: &State, i: usize) -> u32
    requires { i < 423 }
    ensures { result ≡ number_in w.now i }
{
    (w[i] % 4294967296) as u32
}

// The disk's shape, within its limits.
pub fn shape_of(w: &State) -> Shape
    ensures { result ≡ shape_of (card_in w.now) }
{
    let s = Shape {
        cores: byte_in(w, SHAPE_CORES),
        blocks: byte_in(w, SHAPE_BLOCKS),
        journal: byte_in(w, SHAPE_JOURNAL),
    };
    s.clamped()
}

// Blank, up or down.
// stays: one `match` on the number of a cell, that takes every number.
pub fn phase_of(w: &State) -> Phase
    ensures { result ≡ (card_in w.now).phase }
{
    match w[PHASE] {
        0 => Phase::Blank,
        1 => Phase::Up,
        _ => Phase::Down,
    }
}

// Where core c's cells begin.
pub fn core_place(c: u8) -> usize
    ensures { result ≡ core_place c }
{
    CORES + CORE_SIZE * c as usize
}

// Where its running transaction stands.
pub fn running_place(c: u8) -> usize
    ensures { result ≡ running_place c }
{
    core_place(c) + RUNNING
}

// Where its closed one stands.
pub fn closed_place(c: u8) -> usize
    ensures { result ≡ closed_place c }
{
    core_place(c) + CLOSED
}
