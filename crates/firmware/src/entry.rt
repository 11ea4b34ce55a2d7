// The entries, which crate firmware_c exports to foreign callers under these names and with these clauses. A caller lends the cells,
// the tape and both slices; no entry asks for anything. No part of a slice crosses the boundary, so reading without copying answers
// where the part stands.
// stays: each entry has an export of its name, which C calls and Rattle cannot.
ghost use Rattle.std.specs.Prelude.{◌≡◌, length};
ghost use Rattle.model.specs.Card.{blank_card, down_card};
ghost use Rattle.model.specs.Reading.{read_number};
ghost use Rattle.model.specs.JournalPage.{page_of, line_at, lay_number, laid};
ghost use Rattle.cells.specs.Cells.{cells_of, world_in};
ghost use Rattle.firmware.specs.Session.{read_into, RunsCommand, RunsTape, part_in};
ghost use Rattle.firmware.specs.Plans.{PlansCard};

use crate::session::{Part, Reply, Stop};
use model::Shape;

// A card before its FORMAT.
pub fn rev_d_blank(w: &mut [u64; 423])
    ensures { w.new ≡ cells_of blank_card 0 }
{
    crate::session::blank(w);
}

// A card that is down, over a disk written elsewhere.
pub fn rev_d_down(w: &mut [u64; 423])
    ensures { w.new ≡ cells_of down_card 0 }
{
    crate::session::down(w);
}

// The command at an offset of a tape.
pub fn rev_d_command(
    w: &mut [u64; 423],
    tape: &[u8],
    at: usize,
    disk: &mut [u8],
    memory: &mut [u8],
) -> Reply
    ensures { RunsCommand tape.now at w.old disk.old memory.old
        w.new disk.new memory.new result }
{
    crate::session::command(w, tape, at, disk, memory)
}

// Every command of a tape.
pub fn rev_d_tape(w: &mut [u64; 423], tape: &[u8], disk: &mut [u8], memory: &mut [u8]) -> Stop
    ensures { RunsTape tape.now w.old disk.old memory.old
        w.new disk.new memory.new result }
{
    crate::session::run(w, tape, disk, memory)
}

// The number that reading block b answers, 0 for none.
pub fn rev_d_read_number(w: &[u64; 423], b: u16, disk: &[u8], memory: &[u8]) -> u8
    ensures { result ≡ read_number b (world_in w.now disk.now memory.now) }
{
    crate::session::read_number(w, b, disk, memory)
}

// Where the bytes of block b stand.
pub fn rev_d_read_part(w: &[u64; 423], b: u16, disk: &[u8], memory: &[u8]) -> Part
    ensures { result ≡ part_in b (world_in w.now disk.now memory.now) }
{
    crate::session::read_part(w, b, disk, memory)
}

// Block b copied into a lent buffer; a refusal touches no byte of it.
pub fn rev_d_read_block<'a>(
    w: &[u64; 423],
    b: u16,
    disk: &'a [u8],
    memory: &'a [u8],
    out: &mut [u8; Shape::BLOCK_SIZE],
) -> u8
    ensures { (result ≡ read_number b (world_in w.now disk.now memory.now))
        × (out.new ≡ read_into result b (world_in w.now disk.now memory.now) out.old) }
{
    crate::session::copy_block(w, b, disk, memory, out)
}

// How much work it is until the journals are empty: number, commands, stores, count, then the names in order, each 8 * number + core, and
// zeros.
pub fn rev_d_plan(w: &[u64; 423], disk: &[u8], memory: &[u8], out: &mut [u64; 116])
    ensures { PlansCard w.now disk.now memory.now out.new }
{
    crate::session::lay_plan(w, disk, memory, out);
}

// How many lines the journal page of a disk has.
pub fn rev_d_page_lines(disk: &[u8]) -> usize
    ensures { result ≡ length (page_of disk.now) }
{
    journal_page::page_lines(disk)
}

// Line i of that page, from 0, laid into a lent buffer of 65 bytes; another length is answered with 1, and no byte is touched.
pub fn rev_d_page_line(disk: &[u8], i: usize, buffer: &mut [u8]) -> u8
    ensures { (result ≡ lay_number buffer.old)
        × (buffer.new ≡ laid (line_at disk.now i) buffer.old) }
{
    journal_page::page_line(disk, i, buffer)
}
