// The page of a disk, whose journals are read as recovery reads them: how many lines it has, and each of them.
ghost use Rattle.std.specs.Prelude.{◌+◌, ◌-◌, ◌≤◌, ◌<◌, ◌≡◌, [], map, length, get_or, ltb};
ghost use Rattle.model.proofs.Limits.{InRange};
ghost use Rattle.model.specs.Lists.{below};
ghost use Rattle.model.specs.Recovery.{layout_on};
ghost use Rattle.model.specs.Refusal.{answer_of, number_of};
ghost use Rattle.model.specs.JournalPage.{page_refusal, end_line, body_lines, page_of, line_at, lay_number, laid};
ghost use Rattle.model.specs.Layout.{cores_named};
ghost use Rattle.model.specs.Journal.{names_of};
ghost use Rattle.journal.specs.Records.{extent_at, record_in, SizedCommitted, ExtentTested};
ghost use Rattle.journal.specs.Walk.{Behind};
ghost use Rattle.recovery.specs.Recovering.{Shaped, OnDisk};
ghost use Rattle.journal_page.specs.Fields.{max_lines, fields_in, fields_of, refused_line, TailsOn, IsNth};

use crate::fields::{end_fields, head_fields, no_fields, refusal_fields, transaction_fields};
use crate::line::{Field, lay_line};
use journal::{Disk, Extent, Records, end_number};
use model::{CommitLayout, Committed, Refusal, Shape, Tail};
use recovery::{Journals, check_master, disk_shape, read_disk};
use valid::{total_count, valid_runs};

// The lines of the longest page: the head, twelve transactions and an end of each of eight cores.
pub const MAX_LINES: usize = 105;

// What recovery would refuse the disk with.
fn check_page(disk: &[u8]) -> Result<(), Refusal>
    ensures { answer_of result ≡ page_refusal disk.now }
{
    if disk.len() != Shape::DISK_SIZE {
        return Err(Refusal::WrongLength);
    }
    check_master(disk)
}

// How many lines the page has.
pub fn page_lines(disk: &[u8]) -> usize
    ensures { (result ≡ length (page_of disk.now)) × (result ≤ max_lines) }
{
    if check_page(disk).is_err() {
        return 1;
    }
    let s = disk_shape(disk);
    let whole = Disk::new(s, disk);
    let mut extents = [Extent::NONE; 96];
    let all = read_disk(whole, &mut extents);
    let count = all.runs.count;
    1 + total_count(s, &count) + s.cores as usize
}

// Whether place n lies before the end of so many records from a first one on.
fn is_before_end(first: u8, count: u8, n: usize) -> bool
    ensures { result ≡ ltb n (first + count) }
{
    n < first as usize + count as usize
}

// The core of the n-th transaction, from 0: its records stand behind those of the cores before it. None where there are not so many.
fn nth_core(s: Shape, start: [u8; 8], count: [u8; 8], n: usize) -> Option<u8>
    requires { InRange s × Behind s start count }
    ensures { IsNth s start count n result }
{
    for c in 0..s.cores {
        let i = c as usize;
        if is_before_end(start[i], count[i], n) {
            return Some(c);
        }
    }
    None
}

// How many cores a transaction names.
fn cores_named(y: CommitLayout, disk: Disk, e: Committed) -> u8
    requires { SizedCommitted disk.shape e }
    ensures { result ≡ cores_named (names_of y disk.entry.shape disk.entry.bytes.now e) }
{
    let at = e.position as usize + (e.count as usize + 1);
    layout::cores_named(y, disk.block(e.core, at))
}

// The fields of core c's transaction at place n: its records begin at the first one, and so many of them are in the valid set.
fn record_line(
    y: CommitLayout,
    disk: Disk,
    extents: &[Extent; 96],
    c: u8,
    t: Tail,
    first: u8,
    valid: u8,
    n: usize,
) -> [Option<Field>; 6]
    requires { (c < disk.shape.cores) × (n < 96) × (first ≤ n)
        × ExtentTested disk.shape disk.bytes.now c (extent_at extents.now n) }
    ensures { fields_in result ≡ fields_of y disk.entry.shape disk.entry.bytes.now (ltb (n - first) valid)
        (record_in extents.now c (t.number + (n - first)) n) }
{
    let j = n - first as usize;
    let e = extents[n].committed(c, 0);
    let named = cores_named(y, disk, e);
    transaction_fields(e, t.number as u64 + j as u64, named, j < valid as usize)
}

// The fields of the end of core c's journal; none for a core that the disk has not.
fn end_line(y: CommitLayout, disk: Disk, tails: [Tail; 8], c: usize) -> [Option<Field>; 6]
    requires { Shaped disk.shape disk.bytes.now × (y ≡ layout_on disk.bytes.now) × TailsOn disk.shape disk.bytes.now tails }
    ensures { fields_in result ≡ get_or (map (end_line disk.entry.bytes.now) (below disk.entry.shape.cores)) c [] }
{
    if disk.shape.cores as usize <= c {
        return no_fields();
    }
    let t = tails[c];
    let read = disk.journal_end(y, c as u8, t);
    let end = end_number(read);
    end_fields(c as u8, end)
}

// The fields of the n-th line behind the head, from 0, from all journals of the disk: the transactions, then the ends; none past the last.
fn body_line(disk: Disk, extents: &[Extent; 96], all: Journals, n: usize) -> [Option<Field>; 6]
    requires { Shaped disk.shape disk.bytes.now
        × OnDisk disk.shape disk.bytes.now all.layout all.tails extents.now all.runs.start all.runs.count }
    ensures { fields_in result ≡ get_or (body_lines disk.entry.bytes.now) n [] }
{
    let y = all.layout;
    let tails = all.tails;
    let runs = all.runs;
    let s = disk.shape;
    let start = runs.start;
    let count = runs.count;
    let Some(c) = nth_core(s, start, count, n) else {
        return end_line(y, disk, tails, n - total_count(s, &count));
    };
    let records = Records {
        disk,
        extents,
        runs,
    };
    let valid = valid_runs(y, tails, records);
    let i = c as usize;
    let kept = valid.count;
    let t = tails[i];
    record_line(y, disk, extents, c, t, start[i], kept[i], n)
}

// The fields of the n-th line behind the head.
fn nth_line(disk: Disk, n: usize) -> [Option<Field>; 6]
    requires { Shaped disk.shape disk.bytes.now }
    ensures { fields_in result ≡ get_or (body_lines disk.entry.bytes.now) n [] }
{
    let mut extents = [Extent::NONE; 96];
    let all = read_disk(disk, &mut extents);
    body_line(disk, &extents, all, n)
}

// The fields of line i where recovery would refuse the disk: none past the first.
fn refused_line(e: Refusal, i: usize) -> [Option<Field>; 6]
    ensures { fields_in result ≡ refused_line (number_of e) i }
{
    if i == 0 {
        return refusal_fields(u8::from(e));
    }
    no_fields()
}

// The fields of line i.
fn fields_of(disk: &[u8], i: usize) -> [Option<Field>; 6]
    ensures { fields_in result ≡ line_at disk.now i }
{
    if let Err(e) = check_page(disk) {
        return refused_line(e, i);
    }
    let s = disk_shape(disk);
    if i == 0 {
        return head_fields(s);
    }
    nth_line(Disk::new(s, disk), i - 1)
}

// Line i of the page laid into the buffer. Any length but 65 bytes is answered with 1, and no byte is touched.
pub fn page_line(disk: &[u8], i: usize, buffer: &mut [u8]) -> u8
    ensures { (result ≡ lay_number buffer.old)
        × (buffer.new ≡ laid (line_at disk.now i) buffer.old) }
{
    let fields = fields_of(disk, i);
    lay_line(fields, buffer)
}
