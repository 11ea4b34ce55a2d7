// One record of a journal: a descriptor, then a commit, taken apart; where one of them misses, the end that paper 02 gives it.
ghost use Rattle.std.specs.Prelude.{◌≡◌, ◌<◌};
ghost use Rattle.model.specs.JournalEnds.{lacks_descriptor, read_record, record_answer};
ghost use Rattle.journal.specs.Record.{descriptor_of, commit_of};

use crate::disk::Disk;
use layout::BlockKind;
use model::{Block, CommitLayout, Committed, JournalEnd, Shape};

// No block is left, or the number is above the highest, or the block is no descriptor of it.
fn lacks_descriptor(number: u32, left: u8, block: &Block) -> bool
    ensures { result ≡ lacks_descriptor number left block.now }
{
    if left == 0 {
        return true;
    }
    if Shape::MAX_NUMBER < number {
        return true;
    }
    !layout::has_head(block, BlockKind::Descriptor.number(), number)
}

// The fields of a descriptor, where each is in range: how many blocks its transaction took.
fn read_descriptor(s: Shape, block: &Block) -> Option<u8>
    ensures { result ≡ descriptor_of s block.now }
{
    if layout::has_bad_field(s, block) {
        return None;
    }
    Some(layout::block_count(block) as u8)
}

// The stamp of a block that is a commit with this number.
fn read_commit(y: CommitLayout, s: Shape, number: u32, block: &Block) -> Option<u64>
    ensures { result ≡ commit_of y s number block.now }
{
    if layout::is_commit(y, s, number, block) {
        return Some(layout::stamp_in(block));
    }
    None
}

impl<'a> Disk<'a> {
    // Core c's record with this number at a position, of no more blocks than are left, or the first end that fits. No public
    // entry.
    pub fn read_record(
        self,
        y: CommitLayout,
        c: u8,
        number: u32,
        position: u8,
        left: u8,
    ) -> Result<Committed, JournalEnd>
        requires { c < self.shape.cores }
        ensures { result ≡ read_record y self.entry.shape self.entry.bytes.now c number position left }
    {
        let at = position as usize;
        let block = self.block(c, at);
        if lacks_descriptor(number, left, block) {
            return Err(JournalEnd::NoDescriptor);
        }
        // stays: the paper's table of forms asks for `let .. else`.
        let Some(count) = read_descriptor(self.shape, block) else {
            return Err(JournalEnd::BadDescriptor);
        };
        let n = count as usize;
        if (left as usize) < n + 2 {
            return Err(JournalEnd::TooFewBlocks);
        }
        let commit = self.block(c, at + (n + 1));
        let Some(stamp) = read_commit(y, self.shape, number, commit) else {
            return Err(JournalEnd::NoCommit);
        };
        Ok(Committed {
            core: c,
            number,
            position,
            count,
            stamp,
        })
    }
}

// The number of an answer's end, 0 for a record.
// stays: the page prints the number of an end.
pub fn end_number(read: Result<Committed, JournalEnd>) -> u8
    ensures { result ≡ (record_answer read).0 }
{
    match read {
        Ok(_) => 0,
        Err(end) => end as u8,
    }
}
