// From record to record of a journal, and to its end.
ghost use Rattle.std.specs.Prelude.{◌≡◌, ◌+◌, ◌≤◌, ◌<◌};
ghost use Rattle.model.specs.JournalEnds.{journal_end};
ghost use Rattle.journal.specs.Walk.{walk_from, past};
ghost use Rattle.model.specs.Limits.{max_number};

use crate::disk::Disk;
use model::{CommitLayout, Committed, JournalEnd, Tail};

// Where the reading of a journal stands: the number of the next record and its position, and the blocks left of the journal.
#[derive(Clone, Copy)]
pub struct Walk {
    pub number: u32,
    pub at: u8,
    pub left: u8,
}

impl<'a> Disk<'a> {
    // Where the reading of a journal begins: at its tail, with all of its blocks left.
    pub fn walk_from(self, t: Tail) -> Walk
        ensures { result ≡ walk_from self.entry.shape t }
    {
        Walk {
            number: t.number,
            at: t.position,
            left: self.shape.journal,
        }
    }

    // The walk past a record that was read.
    pub fn advance(self, w: Walk, e: Committed) -> Walk
        requires { (e.count + 2 ≤ w.left) × (w.number ≤ max_number) }
        ensures { result ≡ past self.entry.shape w e }
    {
        let size = e.count as usize + 2;
        Walk {
            number: w.number + 1,
            at: self.position(w.at as usize + size),
            left: (w.left as usize - size) as u8,
        }
    }

    // Why the reading of core c's journal from this tail ends. Unlike the reading of all journals it asks at every count of blocks left: a
    // descriptor in the last block is told apart from none. A record has two blocks or more, so the end comes before J of them are read; the
    // reading behind the loop makes the function total. No public entry.
    pub fn journal_end(self, y: CommitLayout, c: u8, t: Tail) -> Result<Committed, JournalEnd>
        requires { c < self.shape.cores }
        ensures { result ≡ journal_end y self.entry.shape self.entry.bytes.now c t }
    {
        let mut w = self.walk_from(t);
        for _ in 0..self.shape.journal {
            let e = self.read_record(y, c, w.number, w.at, w.left)?;
            w = self.advance(w, e);
        }
        self.read_record(y, c, w.number, w.at, w.left)
    }
}
