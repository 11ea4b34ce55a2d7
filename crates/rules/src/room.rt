// Whether there is room for a WRITE: the refusals 25, 36, 26 and 27.
ghost use Rattle.std.specs.Prelude.{◌≡◌, not, ◌&&◌, ◌+◌, ◌<◌, ◌≤◌, ltb, leb, length};
ghost use Rattle.model.specs.Card.{taken, core_of, shape_of};
ghost use Rattle.model.specs.Command.{refusal};
ghost use Rattle.model.specs.Refusal.{answer_of};
ghost use Rattle.model.specs.Write.{writer, takes_block, closed_blocks};
ghost use Rattle.model.specs.Limits.{max_taken, max_number};
ghost use Rattle.cells.specs.Cells.{card_in};
ghost use Rattle.rules.specs.Conditions.{Bounded, size_after, room_conditions};

use crate::{RuleMet, has_running, takes_block};
use cells::{State, USED, block_count, byte_in, closed_place, core_place, is_live, running_place};
use model::{Name, Refusal, Shape};

// How many blocks the writer of core c has; one that opens has none. live: whether its core has a running transaction.
fn writer_count(w: &State, c: u8, live: bool) -> usize
    requires { (c < 8) × (live ≡ (core_of (card_in w.now) c).running.live) }
    ensures { (result ≡ length (taken (writer (card_in w.now) c))) × (result ≤ max_taken) }
{
    if !live {
        return 0;
    }
    block_count(w, running_place(c))
}

// Refusals 25 and 36: a block would be taken by a writer that has the limit's number of blocks or more.
fn takes_past(f: RuleMet, limit: usize, count: usize) -> bool
    ensures { result ≡ (takes_block f.rule && leb limit count) }
{
    let rule = f.rule;
    if !takes_block(rule) {
        return false;
    }
    limit <= count
}

// The blocks of the records of a core's closed unretired transactions, stored yet or not.
fn closed_blocks(w: &State, c: u8) -> usize
    requires { c < 8 }
    ensures { (result ≡ closed_blocks (core_of (card_in w.now) c)) × (result ≤ 265) }
{
    let used = byte_in(w, core_place(c) + USED) as usize;
    let at = closed_place(c);
    if !is_live(w, at) {
        return used;
    }
    used + (block_count(w, at) + 2)
}

// The blocks of the writer's record after this WRITE.
fn size_after(f: RuleMet, count: usize) -> usize
    requires { count ≤ max_taken }
    ensures { (result ≡ size_after f.rule count) × (result ≤ 11) }
{
    let rule = f.rule;
    if !takes_block(rule) {
        return count + 2;
    }
    count + 3
}

// Refusal 26.
fn journal_full(w: &State, s: Shape, f: RuleMet, count: usize) -> bool
    requires { Bounded f × (count ≤ max_taken) }
    ensures { result ≡ ltb s.journal (closed_blocks (core_of (card_in w.now) f.core) + size_after f.rule count) }
{
    let used = closed_blocks(w, f.core);
    let size = size_after(f, count);
    let j = s.journal as usize;
    j < used + size
}

// Refusal 27.
fn numbers_end(own: Name, live: bool) -> bool
    ensures { result ≡ (not live && ltb max_number own.number) }
{
    if live {
        return false;
    }
    Shape::MAX_NUMBER < own.number
}

// What a WRITE for which there is no room is refused with. limit: with so many blocks its task takes no further one.
pub fn check_room(w: &State, s: Shape, limit: usize, f: RuleMet) -> Result<(), Refusal>
    requires { (s ≡ shape_of (card_in w.now)) × Bounded f }
    ensures { answer_of result ≡ refusal (room_conditions (card_in w.now) limit f) }
{
    let live = has_running(w, f.core);
    let count = writer_count(w, f.core, live);
    if takes_past(f, Shape::MAX_TAKEN, count) {
        return Err(Refusal::NinthBlock);
    }
    if takes_past(f, limit, count) {
        return Err(Refusal::ReportLimit);
    }
    if journal_full(w, s, f, count) {
        return Err(Refusal::JournalFull);
    }
    if numbers_end(f.own, live) {
        return Err(Refusal::NumbersEnd);
    }
    Ok(())
}
