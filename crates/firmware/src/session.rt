// The card's state in 423 lent cells, over the lent disk and memory. The type fixes the count of the cells, so nothing is asked for
// and no refusal is new.
ghost use Rattle.std.specs.Prelude.{◌≡◌};
ghost use Rattle.model.specs.Card.{blank_card, down_card};
ghost use Rattle.model.specs.Reading.{read_number, read_block};
ghost use Rattle.cells.specs.Cells.{cells_of, stores_in, world_in};
ghost use Rattle.firmware.specs.Session.{read_into, RunsCommand, RunsTape, part_in};
ghost use Rattle.firmware.specs.Plans.{PlansCard};

use model::{Shape, answer_number};

// What came of one command: the offset of the next one, the number answered (0 if done) and the command's byte.
// stays: the C interface has numbers here.
#[repr(C)]
#[derive(Clone, Copy)]
pub struct Reply {
    pub next: u64,
    pub number: u32,
    pub byte: u32,
}

// Where a tape stopped: the offset of its last command, the number answered and the command's byte; 0 of each for an empty tape.
// stays: the C interface has numbers here.
#[repr(C)]
#[derive(Clone, Copy)]
pub struct Stop {
    pub at: u64,
    pub number: u32,
    pub byte: u32,
}

// Where the bytes of a block stand: in no slice (0), the disk (1) or memory (2), from where, and how many. A refused reading has
// its number and 0 of each.
// stays: the C interface has numbers here.
#[repr(C)]
#[derive(Clone, Copy)]
pub struct Part {
    pub number: u32,
    pub slice: u32,
    pub from: u64,
    pub length: u64,
}

// A card before its FORMAT.
pub fn blank(w: &mut [u64; 423])
    ensures { w.new ≡ cells_of blank_card 0 }
{
    cells::blank(w);
}

// A card that is down, over a disk written elsewhere.
pub fn down(w: &mut [u64; 423])
    ensures { w.new ≡ cells_of down_card 0 }
{
    cells::go_down(w);
}

// The stores counted so far.
pub fn stores(w: &[u64; 423]) -> u64
    ensures { result ≡ stores_in w.now }
{
    cells::stores_of(w)
}

// The command at an offset of a tape.
pub fn command(
    w: &mut [u64; 423],
    tape: &[u8],
    at: usize,
    disk: &mut [u8],
    memory: &mut [u8],
) -> Reply
    ensures { RunsCommand tape.now at w.old disk.old memory.old
        w.new disk.new memory.new result }
{
    let done = command::counted_command(w, tape, at, disk, memory);
    Reply {
        next: done.next as u64,
        number: answer_number(done.answer) as u32,
        byte: done.byte as u32,
    }
}

// The number that reading block b answers, 0 for none.
// stays: the C interface answers a refusal by its number
pub fn read_number(w: &[u64; 423], b: u16, disk: &[u8], memory: &[u8]) -> u8
    ensures { result ≡ read_number b (world_in w.now disk.now memory.now) }
{
    answer_number(reading::check_read(w, b, disk, memory))
}

// Block b handed on as a part of a lent slice, without copying.
pub fn read_block<'a>(w: &[u64; 423], b: u16, disk: &'a [u8], memory: &'a [u8]) -> &'a [u8]
    ensures { result.now ≡ read_block b (world_in w.now disk.now memory.now) }
{
    reading::read_block(w, b, disk, memory)
}

// Where its bytes stand.
pub fn read_part(w: &[u64; 423], b: u16, disk: &[u8], memory: &[u8]) -> Part
    ensures { result ≡ part_in b (world_in w.now disk.now memory.now) }
{
    match reading::read_part(w, b, disk, memory) {
        Ok(p) => Part {
            number: 0,
            slice: u32::from(p.slice),
            from: p.from as u64,
            length: p.length as u64,
        },
        Err(e) => Part {
            number: u8::from(e) as u32,
            slice: 0,
            from: 0,
            length: 0,
        },
    }
}

// Block b copied into a lent buffer; a refusal touches no byte of it.
// stays: the C interface answers a refusal by its number
pub fn copy_block<'a>(
    w: &[u64; 423],
    b: u16,
    disk: &'a [u8],
    memory: &'a [u8],
    out: &mut [u8; Shape::BLOCK_SIZE],
) -> u8
    ensures { (result ≡ read_number b (world_in w.now disk.now memory.now))
        × (out.new ≡ read_into result b (world_in w.now disk.now memory.now) out.old) }
{
    let n = read_number(w, b, disk, memory);
    if n != 0 {
        return n;
    }
    let block = read_block(w, b, disk, memory);
    out.copy_from_slice(block);
    0
}

// How much work it is until the journals are empty, laid into a lent buffer.
pub fn lay_plan(w: &[u64; 423], disk: &[u8], memory: &[u8], out: &mut [u64; 116])
    ensures { PlansCard w.now disk.now memory.now out.new }
{
    planner::lay_plan(w, disk, memory, out);
}

// Every command of a tape.
pub fn run(w: &mut [u64; 423], tape: &[u8], disk: &mut [u8], memory: &mut [u8]) -> Stop
    ensures { RunsTape tape.now w.old disk.old memory.old
        w.new disk.new memory.new result }
{
    let mut last = Stop {
        at: 0,
        number: 0,
        byte: 0,
    };
    let mut at: usize = 0;
    // stays: a `while`, since where the next command begins is known only when this one was read
    while at < tape.len() {
        let done = command(w, tape, at, disk, memory);
        last = Stop {
            at: at as u64,
            number: done.number,
            byte: done.byte,
        };
        at = done.next as usize;
    }
    last
}
